//! Records of probes have the bytes and the counts of the records by their numbers, after either header.
use dspec::{
    Batch, Config, Enablings, Lane, Probe, Probes, Recording, Report, Sink, Work, closed_cpu, trace,
};
use std::alloc::Global;
use std::test::Fail;
use std::thread::Threads;

type Mixed = (u8, i16, u32, f64);

type Eight = (u64, bool, i32, u16, i8, f32, i64, u8);

/// By probes: records of one to eight fields, and of a path.
#[derive(Drop)]
struct ByProbes {
    short: Probe<(u8,)>,
    plain: Probe<(u32,)>,
    mixed: Probe<Mixed>,
    eight: Probe<Eight>,
}

impl Work<Enablings> for ByProbes {
    fn work(&self, lane: &mut Lane<'_, Enablings>) {
        let (Ok(short), Ok(plain)) = (self.short.on(lane), self.plain.on(lane)) else {
            return;
        };
        let (Ok(mixed), Ok(eight)) = (self.mixed.on(lane), self.eight.on(lane)) else {
            return;
        };
        short.record(lane, 1, (255,));
        mixed.record(lane, 2, (1, -2, 3, 0.5));
        plain.record(lane, 3, (u32::MAX,));
        eight.record(
            lane,
            u64::MAX,
            (u64::MAX, true, -1, 65535, -128, -0.5, i64::MIN, 7),
        );
        let path = lane.path();
        short.record_in(lane, &path, 5, (9,));
        eight.record_in(lane, &path, 6, (1, false, 2, 3, 4, 5.0, 6, 7));
        mixed.record_in(lane, &path, 7, (255, 32767, 0, -1.0));
        path.commit(lane);
        plain.record(lane, 8, (8,));
        mixed.record(lane, 9, (0, 0, 0, 0.0));
    }
}

/// The same by numbers; a stamp is handed in where records have one.
#[derive(Drop)]
struct ByNumbers {
    stamps: bool,
}

impl ByNumbers {
    fn stamp(&self, stamp: u64) -> u64 {
        if self.stamps { stamp } else { 0 }
    }
}

const HALF: u64 = 0x3fe0_0000_0000_0000;

impl Work<Enablings> for ByNumbers {
    fn work(&self, lane: &mut Lane<'_, Enablings>) {
        let _ = lane.record(1, self.stamp(1), &[255]);
        let _ = lane.record(3, self.stamp(2), &[1, 0xfffe, 3, HALF]);
        let _ = lane.record(2, self.stamp(3), &[0xffff_ffff]);
        let most = u64::MAX;
        let numbers = [most, 1, 0xffff_ffff, 65535, 0x80, 0xbf00_0000, 1 << 63, 7];
        let _ = lane.record(4, self.stamp(u64::MAX), &numbers);
        let path = lane.path();
        let _ = path.record(lane, 1, self.stamp(5), &[9]);
        let _ = path.record(lane, 4, self.stamp(6), &[1, 0, 2, 3, 4, 0x40a0_0000, 6, 7]);
        let _ = path.record(
            lane,
            3,
            self.stamp(7),
            &[255, 32767, 0, 0xbff0_0000_0000_0000],
        );
        path.commit(lane);
        let _ = lane.record(2, self.stamp(8), &[8]);
        let _ = lane.record(3, self.stamp(9), &[0, 0, 0, 0]);
    }
}

/// All bytes that came, and how many records they were.
#[derive(Drop)]
struct Bytes {
    bytes: Vec<u8>,
    count: u32,
    lost: bool,
}

impl Sink<Enablings> for Bytes {
    fn batch(&mut self, _schema: &Enablings, batch: &Batch) {
        self.count = self.count.wrapping_add(batch.buffer.count());
        if self.bytes.extend_from_slice(batch.buffer.bytes()).is_err() {
            self.lost = true;
        }
    }
}

/// What came of a work, and the report.
fn came<R: Threads + Sync, W: Work<Enablings>>(
    rt: &R,
    alloc: Global,
    schema: Enablings,
    work: &W,
) -> Result<(Bytes, Report), Fail> {
    let mut bytes = Bytes {
        bytes: Vec::new(alloc),
        count: 0,
        lost: false,
    };
    let config = Config::of(1, 2, 4096, 1024);
    let closed = trace(rt, alloc, &config, schema, work, &mut bytes)?;
    Ok((bytes, *closed_cpu(&closed, 0).report))
}

/// The probes of `ByProbes`.
fn declared(probes: &mut Probes<'static>) -> Result<ByProbes, Fail> {
    Ok(ByProbes {
        short: probes.probe("short", &["a"])?,
        plain: probes.probe("plain", &["a"])?,
        mixed: probes.probe("mixed", &["a", "b", "c", "d"])?,
        eight: probes.probe("eight", &["a", "b", "c", "d", "e", "f", "g", "h"])?,
    })
}

/// Both works leave the same bytes and the same report.
fn agree<R: Threads + Sync>(
    rt: &R,
    alloc: Global,
    probes: Probes<'static>,
    stamps: bool,
) -> Result<bool, Fail> {
    let mut probes = probes;
    let by_probes = declared(&mut probes)?;
    let (bytes, report) = came(rt, alloc, probes.enablings(), &by_probes)?;
    let by_numbers = ByNumbers { stamps };
    let (wanted, due) = came(rt, alloc, probes.enablings(), &by_numbers)?;
    let same = bytes.bytes.as_slice() == wanted.bytes.as_slice() && report == due;
    let all = bytes.count == 9 && report.accepted == 9;
    Ok(same && all && !bytes.lost && !wanted.lost)
}

#[test]
fn bytes_by_probes(rt: HostRuntime) -> Result<(), Fail> {
    assert!(rt; agree(&rt, rt.alloc(), Probes::new(rt.alloc()), true)?);
    assert!(rt; agree(&rt, rt.alloc(), Probes::unstamped(rt.alloc()), false)?);
    Ok(())
}
