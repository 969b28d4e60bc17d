//! What the end of a session tells beyond what its batches told.
use crate::losses::{Flaky, Seen};
use dspec::{Config, Enablings, Lane, Work, trace};
use dspec_ctf_sink::{Names, TraceFolder, tell_untold};
use std::test::Fail;

/// In buffers of two records each: three records in a path, of which the last has no room, a record before the path is kept, which so is lost
/// with two records, and two after it, of which the last has no room.
#[derive(Drop)]
struct Full {}

impl Work<Enablings> for Full {
    fn work(&self, lane: &mut Lane<'_, Enablings>) {
        let path = lane.path();
        let _ = path.record(lane, 1, 0, &[]);
        let _ = path.record(lane, 1, 0, &[]);
        let _ = path.record(lane, 1, 0, &[]);
        let _ = lane.record(1, 0, &[]);
        path.commit(lane);
        let _ = lane.record(1, 0, &[]);
        let _ = lane.record(1, 0, &[]);
    }
}

/// The last buffer's packet tells its two drops, of a block and of a record; then the two records of the block are told, and that in the
/// path.
#[test]
fn what_reports_count_is_told(rt: HostRuntime) -> Result<(), Fail> {
    let mut schema = Enablings::new();
    let _ = schema.enable(&[]);
    let seen = Seen::new();
    let folder = Flaky {
        seen: &seen,
        refused: 0,
        place: 40,
    };
    let mut sink = TraceFolder::new(rt.alloc(), folder, [0; 16], &schema, &Names::Numbered)?;
    let config = Config::of(1, 1, 8, 8);
    let closed = trace(&rt, rt.alloc(), &config, schema, &Full {}, &mut sink)?;
    let report = closed.report(0);
    assert!(rt;
        (
            report.dropped,
            report.specdropped,
            report.lost,
            report.drops
        ) == (1, 1, 2, 2)
    );
    assert!(rt; seen.told() == (2, 2));
    tell_untold(rt.alloc(), &schema, &closed, &mut sink)?;
    assert!(rt; seen.told() == (3, 4));
    assert!(rt; sink.finish().is_ok());
    Ok(())
}
