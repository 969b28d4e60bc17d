//! A CPU's files in a trace by time that is written while it runs.
//!
//! A CPU's records aren't in the order of their stamps, since those of a committed path stand where it was committed. But each of several
//! files can be: a record goes to the file that goes on with it (`specs/Rows.antt`), and tools merge the files.

ghost use Rattle.std.specs.Prelude.{◌≡◌, ◌+◌, ◌*◌, ◌<◌, ◌≤◌, ◌++◌, [], length, All, IfOk, IfErr, OnErr, OnOk, vec_capacity, vec_len};
ghost use Rattle.dspec_ctf.specs.{Filled.filled_size, Filled.LacksRoomAfter, Packets.events, Rows.HasNoRoomFor, Rows.IsFoundOf, Rows.most_records, Rows.missed_packets, Rows.run_packet};
ghost use Rattle.dspec_ctf.specs.{Rows.silent_packet, Streams.Accepts, Streams.IsText, Streams.IsTooLong, Streams.HasNoRecords};
ghost use Rattle.dspec_record.specs.declared.header.Header.TheVariants.{Two};

use crate::by_time::add_records;
use crate::filled::{put_filled, put_filled_around};
use crate::stream::{PacketFault, Stream};
use dspec_buffer::read_all;
use dspec_record::{Enablings, Rec};
use std::alloc::{AllocError, Global};
use std::marker::Model;

/// The most files of a CPU.
pub const MOST_FILES: usize = 64;

/// Records of a CPU that stand one after another and go to one file: those from a place on up to this one.
#[derive(Debug, Clone, Copy, PartialEq, Eq)]
pub struct Run {
    /// The number of the file.
    pub file: usize,
    /// The place after the last of them.
    pub end: usize,
}

/// What is known of a CPU's files: of each the stamp of its last event. In each file stamps don't fall.
#[derive(Debug, Drop)]
pub struct Rows {
    lasts: [u64; MOST_FILES],
    count: usize,
}

impl Model for Rows {
    ghost use Rattle.std.specs.Prelude.{◌≤◌, ℕ, List, take};

    ghost Value = { List ℕ };

    ghost view = { λ i. take i.count i.lasts };

    ghost invariant = { λ i. i.count ≤ 64 };
}

/// What is found among the files up to this one, by what is found among those before it.
fn later(lasts: &[u64], found: Option<usize>, place: usize, stamp: u64) -> Option<usize>
    requires there { place < length lasts.now }
    requires before { IsFoundOf lasts.now place stamp found }
    ensures { IsFoundOf lasts.now (place + 1) stamp result }
{
    if lasts[place] > stamp {
        return found;
    }
    match found {
        None => Some(place),
        Some(file) if lasts[file] < lasts[place] => Some(place),
        Some(file) => Some(file),
    }
}

/// The file with the greatest last stamp that isn't above this one.
fn latest(lasts: &[u64], stamp: u64) -> Option<usize>
    ensures { IsFoundOf lasts.now (length lasts.now) stamp result }
{
    let mut found = None;
    for place in 0..lasts.len() {
        found = later(lasts, found, place, stamp);
    }
    found
}

impl Rows {
    ghost use Rattle.std.specs.Prelude.{◌≡◌, ◌<◌, ◌≤◌, ◌-◌, ℕ, List, Some, [], true, false, length, slice_get, slice_index, slice_range, replicate, IfOk, IfErr, OnErr};
    ghost use Rattle.dspec_record.specs.Record.{Record};
    ghost use Rattle.dspec_ctf.specs.Rows.{GoesToFile, Spreads, IsNextRun, HasNoRun};

    /// No files yet.
    pub fn new() -> Rows
        ensures { result ≡ [] }
    {
        Rows {
            lasts: [0; MOST_FILES],
            count: 0,
        }
    }

    /// Of each file the stamp of its last event.
    fn lasts(&self) -> &[u64]
        ensures { result.now ≡ self.now }
    {
        &self.lasts[..self.count]
    }

    /// The last stamp of the first file; 0 where there is none.
    fn first_stamp(&self) -> u64
        ensures { result ≡ slice_index self.now 0 }
    {
        match self.lasts().first() {
            Some(stamp) => *stamp,
            None => 0,
        }
    }

    /// Takes the record at a place, and says its file.
    #[tactic(auto, using(crate::proofs::Rising::stamped, crate::proofs::Rising::stamped_next))]
    fn take(&mut self, records: &[Rec], place: usize) -> Result<usize, PacketFault>
        requires { place < length records.now }
        ensures goes { IfOk result (λ file. (r : Record) → slice_get records.now place ≡ Some r → GoesToFile self.old r.stamp file self.new) }
        ensures fault { IfErr result (HasNoRun self.old records.now place) }
        ensures refused { OnErr result (self.new ≡ self.old) }
    {
        let stamp = records[place].stamp();
        if let Some(found) = latest(self.lasts(), stamp) {
            self.lasts[found] = stamp;
            return Ok(found);
        }
        let file = self.count;
        if file >= MOST_FILES {
            return Err(PacketFault::Clock(place));
        }
        self.lasts[file] = stamp;
        self.count = file + 1;
        Ok(file)
    }

    /// Takes a record with this stamp where it goes to that file.
    #[tactic(auto, using(crate::proofs::Rising::stamped))]
    fn take_on(&mut self, file: usize, stamp: u64) -> bool
        requires { file < length self.old }
        ensures goes { result ≡ true → GoesToFile self.old stamp file self.new }
        ensures elsewhere { result ≡ false → (after : List ℕ) → GoesToFile self.old stamp file after → ⊥ }
        ensures same { result ≡ false → self.new ≡ self.old }
        ensures files { length self.new ≡ length self.old }
    {
        if latest(self.lasts(), stamp) != Some(file) {
            return false;
        }
        self.lasts[file] = stamp;
        true
    }

    /// Takes the records from a place on that go to that file, and says up to where those stand.
    fn take_all_on(&mut self, records: &[Rec], from: usize, file: usize) -> usize
        requires there { file < length self.old }
        requires within { from ≤ length records.now }
        ensures not_before { from ≤ result }
        ensures within { result ≤ length records.now }
        ensures goes { Spreads self.old (slice_range records.now from result) (replicate (result - from) file) self.new }
        ensures whole { (r : Record) (after : List ℕ) → slice_get records.now result ≡ Some r → GoesToFile self.new r.stamp file after → ⊥ }
    {
        for place in from..records.len() {
            if !self.take_on(file, records[place].stamp()) {
                return place;
            }
        }
        records.len()
    }

    /// The run of these records from a place on, which the files have then; None at their end. A record that would need one file more
    /// than 64 is told by its place, as `Clock`: the stamps of the CPU aren't those of one clock. Nothing is taken where the answer is a
    /// fault, which is that. No memory is taken.
    pub fn next_run(&mut self, records: &[Rec], place: usize) -> Result<Option<Run>, PacketFault>
        ensures run { IfOk result (λ run. IsNextRun self.old records.now place run self.new) }
        ensures fault { IfErr result (HasNoRun self.old records.now place) }
        ensures refused { OnErr result (self.new ≡ self.old) }
    {
        if place >= records.len() {
            return Ok(None);
        }
        let file = self.take(records, place)?;
        let end = self.take_all_on(records, place + 1, file);
        Ok(Some(Run { file, end }))
    }
}

/// The most records that a batch of so many bytes has, which have stamps.
pub(crate) fn most_records(size: usize) -> usize
    ensures { result ≡ most_records size }
{
    size / 12
}

/// Takes memory for a list of so many.
pub(crate) fn reserve_in<T>(list: &mut Vec<T>, count: usize) -> Result<(), AllocError>
    ensures items { list.new.items ≡ list.old.items }
    ensures room { OnOk result (count ≤ vec_capacity list.new) }
    ensures capacity { vec_capacity list.old ≤ vec_capacity list.new }
    ensures full { OnErr result (vec_capacity list.old < count) }
{
    list.reserve(count.saturating_sub(list.len()))
}

/// Has the records of a batch's text, which have stamps, in place of those that the list had. It takes memory where there is no room for as many as a text of
/// that size may have.
pub(crate) fn read_again(
    recs: &mut Vec<Rec>,
    enablings: &Enablings,
    text: &[u8],
) -> Result<(), PacketFault>
    requires stamped { enablings.now.header ≡ Two }
    ensures text { OnOk result (IsText enablings.now text.now recs.new.items) }
    ensures accepted { OnOk result (All (Accepts enablings.now) recs.new.items) }
    ensures fault { IfErr result (HasNoRoomFor enablings.now text.now (vec_capacity recs.old)) }
    ensures refused { OnErr result (recs.new.items ≡ recs.old.items) }
    ensures capacity { vec_capacity recs.old ≤ vec_capacity recs.new }
{
    let records = match read_all(enablings, text) {
        Ok(records) => records,
        Err(fault) => return Err(PacketFault::Text(fault)),
    };
    reserve_in(recs, most_records(text.len()))?;
    recs.clear();
    add_records(recs, records).unwrap();
    Ok(())
}

/// The records of a batch's text.
pub fn records_of(
    alloc: Global,
    enablings: &Enablings,
    text: &[u8],
) -> Result<Vec<Rec>, PacketFault>
    ensures text { IfOk result (λ recs. IsText enablings.now text.now recs.items) }
    ensures accepted { IfOk result (λ recs. All (Accepts enablings.now) recs.items) }
    ensures fault { IfErr result (HasNoRecords enablings.now text.now) }
{
    let records = match read_all(enablings, text) {
        Ok(records) => records,
        Err(fault) => return Err(PacketFault::Text(fault)),
    };
    let mut recs = Vec::new(alloc);
    add_records(&mut recs, records)?;
    Ok(recs)
}

/// Adds a packet without events, of 1,024 bytes.
fn put_silent(out: &mut Vec<u8>, stream: &Stream<'_>, stamp: u64) -> Result<(), AllocError>
    ensures bytes { OnOk result (out.new.items ≡ out.old.items
        ++ silent_packet stream.now.uuid stream.now.missed stream.now.cpu stamp) }
    ensures full { OnErr result (vec_capacity out.old < vec_len out.old + filled_size) }
    ensures long { OnOk result (vec_len out.new ≡ vec_len out.old + filled_size) }
    ensures capacity { vec_capacity out.old ≤ vec_capacity out.new }
{
    put_filled_around(out, stream, Some((stamp, stamp)), &[])
}

impl<'a> Stream<'a> {
    /// The packets of a run's records for that file, of 1,024 bytes each, with the stamps of the first and of the last of each. In the CPU's first file they tell
    /// `missed`, in the others none. A fault is `Memory`, never `TooLong`.
    pub fn run_packet(
        &self,
        alloc: Global,
        file: usize,
        records: &[Rec],
    ) -> Result<Vec<u8>, PacketFault>
        requires { All (Accepts self.now.enablings.now) records.now }
        ensures packet { IfOk result
            (λ bytes. bytes.items ≡ run_packet self.now.uuid self.now.enablings.now self.now.missed self.now.cpu file records.now) }
        ensures fault { IfErr result (IsTooLong (events self.now.enablings.now records.now)) }
    {
        let (mut bytes, mut body) = (Vec::new(alloc), Vec::new(alloc));
        self.put_run(&mut bytes, &mut body, file, records)?;
        Ok(bytes)
    }

    /// Adds the packets of a run, as `run_packet` gives them. The body has the events of one packet at a time.
    pub(crate) fn put_run(
        &self,
        out: &mut Vec<u8>,
        body: &mut Vec<u8>,
        file: usize,
        records: &[Rec],
    ) -> Result<(), AllocError>
        requires { body.old.items ≡ [] }
        ensures bytes { OnOk result (out.new.items ≡ out.old.items
            ++ run_packet self.now.uuid self.now.enablings.now self.now.missed self.now.cpu file records.now) }
        ensures full { OnErr result (LacksRoomAfter out.old body.old
            (run_packet self.now.uuid self.now.enablings.now self.now.missed self.now.cpu file records.now)) }
        ensures capacity { vec_capacity out.old ≤ vec_capacity out.new }
        ensures body { vec_capacity body.old ≤ vec_capacity body.new }
    {
        let missed = if file == 0 { self.missed } else { 0 };
        let stream = Stream { missed, ..*self };
        put_filled(out, body, &stream, true, records)
    }

    /// Two packets of 1,024 bytes for the CPU's first file that tell what was missed since so many were: they have no events, and stand at the last
    /// stamp of that file, or at 0 where it has none.
    pub fn missed_packets(
        &self,
        alloc: Global,
        rows: &Rows,
        before: u64,
    ) -> Result<Vec<u8>, AllocError>
        ensures { IfOk result
            (λ bytes. bytes.items ≡ missed_packets self.now.uuid before self.now.missed self.now.cpu rows.now) }
    {
        let mut bytes = Vec::new(alloc);
        self.put_missed(&mut bytes, rows, before)?;
        Ok(bytes)
    }

    /// Adds the two packets that tell what was missed, as `missed_packets` gives them.
    pub(crate) fn put_missed(
        &self,
        out: &mut Vec<u8>,
        rows: &Rows,
        before: u64,
    ) -> Result<(), AllocError>
        ensures bytes { OnOk result (out.new.items ≡ out.old.items
            ++ missed_packets self.now.uuid before self.now.missed self.now.cpu rows.now) }
        ensures full { OnErr result (vec_capacity out.old < vec_len out.old + 2 * filled_size) }
        ensures capacity { vec_capacity out.old ≤ vec_capacity out.new }
    {
        let stamp = rows.first_stamp();
        let then = Stream {
            missed: before,
            ..*self
        };
        put_silent(out, &then, stamp)?;
        put_silent(out, self, stamp)
    }
}
