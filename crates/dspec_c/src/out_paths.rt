//! The calls of a CPU that is out on a table of its open paths.

ghost use Rattle.std.specs.Prelude.{◌≡◌};
ghost use Rattle.dspec_cpu.specs.Standing.{identity, IsCallable};
ghost use Rattle.dspec_c.specs.PathCalls.{key_told, BeginsOnCpu, BeginTold, DiscardsOnCpu, KeepsPartOnCpu, TurnsOnCpu, DiscardTold, IsKeyOf, KeepPartTold, LoseTold, TurnTold, began_status};
ghost use Rattle.dspec_c.specs.PathCalls.{end_number, end_status, there_status, named, turned_number, turned_status};
ghost use Rattle.dspec_paths.specs.{Counts.counted_begin, Counts.counted_discard, Counts.counted_end, Counts.counted_loss, Counts.counted_in, Counts.has_part_at, Open.places_of};

use crate::out_cpu::OutCpu;
use crate::statuses::{BUSY, GOES_ON, OK, PATH_LOST, UNAVAILABLE, VOID, of_decided};
use dspec_cpu::{Cpu, Shared};
use dspec_paths::{LentCpu, PathEnd, PathKey, Paths};
use dspec_record::Enablings;
use dspec_word::SpecId;

/// The name of a path, by its numbers.
#[inline(always)]
pub(crate) fn key_of(place: u32, id: u64) -> PathKey
    ensures { IsKeyOf place id result }
{
    PathKey {
        place,
        newest: SpecId::from_raw(id),
    }
}

/// Whether a path began, whose name goes out where it did.
fn of_begun(begun: Option<PathKey>, place: &mut u32, id: &mut u64) -> u32
    ensures status { result ≡ began_status begun }
    ensures told { named place.new id.new ≡ key_told begun (named place.old id.old) }
{
    match begun {
        Some(key) => {
            *place = key.place;
            *id = key.newest.raw();
            OK
        }
        None => UNAVAILABLE,
    }
}

/// Whether a path goes on, whose new speculation goes out where it does.
fn of_turned(turned: Option<SpecId>, newest: &mut u64) -> u32
    ensures status { result ≡ turned_status turned }
    ensures told { newest.new ≡ turned_number turned newest.old }
{
    match turned {
        Some(id) => {
            *newest = id.raw();
            OK
        }
        None => UNAVAILABLE,
    }
}

/// What came of a part of a path, whose number of records goes out where there is one.
fn of_end(end: PathEnd, count: &mut u32) -> u32
    ensures status { result ≡ end_status end }
    ensures count { count.new ≡ end_number end count.old }
{
    match end {
        PathEnd::Over => VOID,
        PathEnd::Waits(_) => BUSY,
        PathEnd::GoesOn(n) => {
            *count = n;
            GOES_ON
        }
        PathEnd::Ended(_, answer) => of_decided(answer, count),
        PathEnd::Lost(n) => {
            *count = n;
            PATH_LOST
        }
    }
}

/// Whether a path of that name was open.
pub(crate) fn of_there(found: bool) -> u32
    ensures { result ≡ there_status found }
{
    if found { OK } else { VOID }
}

// On a CPU, which is lent to the table for the call.
#[inline(always)]
fn begin_on(
    cpu: &mut Cpu<Enablings>,
    shared: &Shared,
    table: &mut Paths,
    number: u32,
    thread: u32,
    stamp: u64,
) -> Option<PathKey>
    requires { IsCallable shared.now cpu.old }
    ensures same { identity cpu.new ≡ identity cpu.old }
    ensures begins { BeginsOnCpu number thread stamp result (places_of table.old) (places_of table.new) cpu.old cpu.new }
    ensures counted { counted_in table.new ≡ counted_begin result (counted_in table.old) }
{
    let mut lent = LentCpu::of(shared, cpu);
    table.begin(&mut lent, number, thread, stamp)
}

#[inline(always)]
fn turn_on(
    cpu: &mut Cpu<Enablings>,
    shared: &Shared,
    table: &mut Paths,
    key: &PathKey,
) -> Option<SpecId>
    requires { IsCallable shared.now cpu.old }
    ensures same { identity cpu.new ≡ identity cpu.old }
    ensures turns { TurnsOnCpu key.now result (places_of table.old) (places_of table.new) cpu.old cpu.new }
    ensures counted { counted_in table.new ≡ counted_in table.old }
{
    let mut lent = LentCpu::of(shared, cpu);
    table.turn(&mut lent, key)
}

#[inline(always)]
fn keep_part_on(
    cpu: &mut Cpu<Enablings>,
    shared: &Shared,
    table: &mut Paths,
    key: &PathKey,
    waits: bool,
) -> PathEnd
    requires { IsCallable shared.now cpu.old }
    ensures same { identity cpu.new ≡ identity cpu.old }
    ensures keeps { KeepsPartOnCpu waits key.now result (places_of table.old) (places_of table.new) cpu.old cpu.new }
    ensures counted { counted_in table.new ≡ counted_end (has_part_at key.now.place (places_of table.old)) result (counted_in table.old) }
{
    let mut lent = LentCpu::of(shared, cpu);
    table.keep_part(&mut lent, key, waits)
}

#[inline(always)]
fn discard_on(cpu: &mut Cpu<Enablings>, shared: &Shared, table: &mut Paths, key: &PathKey) -> bool
    requires { IsCallable shared.now cpu.old }
    ensures same { identity cpu.new ≡ identity cpu.old }
    ensures discards { DiscardsOnCpu key.now result (places_of table.old) (places_of table.new) cpu.old cpu.new }
    ensures counted { counted_in table.new ≡ counted_discard result (counted_in table.old) }
{
    let mut lent = LentCpu::of(shared, cpu);
    table.discard(&mut lent, key)
}

#[inline(always)]
fn lose_on(cpu: &mut Cpu<Enablings>, shared: &Shared, table: &mut Paths, key: &PathKey) -> bool
    requires { IsCallable shared.now cpu.old }
    ensures same { identity cpu.new ≡ identity cpu.old }
    ensures discards { DiscardsOnCpu key.now result (places_of table.old) (places_of table.new) cpu.old cpu.new }
    ensures counted { counted_in table.new ≡ counted_loss result (counted_in table.old) }
{
    let mut lent = LentCpu::of(shared, cpu);
    table.lose(&mut lent, key)
}

impl OutCpu {
    /// A path begins.
    pub fn begin_path(
        &mut self,
        table: &mut Paths,
        number: u32,
        thread: u32,
        stamp: u64,
        place: &mut u32,
        id: &mut u64,
    ) -> u32
        ensures { BeginTold number thread stamp result (named place.old id.old) (named place.new id.new) table.old table.new self.old self.new }
    {
        let begun = begin_on(&mut self.cpu, &self.shared, table, number, thread, stamp);
        of_begun(begun, place, id)
    }

    /// A path whose speculation is full goes on in a new one.
    pub fn turn_path(&mut self, table: &mut Paths, place: u32, id: u64, newest: &mut u64) -> u32
        ensures { TurnTold place id result newest.old newest.new table.old table.new self.old self.new }
    {
        let turned = turn_on(&mut self.cpu, &self.shared, table, &key_of(place, id));
        of_turned(turned, newest)
    }

    /// Keeps a part of a path.
    pub fn keep_part(
        &mut self,
        table: &mut Paths,
        place: u32,
        id: u64,
        waits: bool,
        count: &mut u32,
    ) -> u32
        ensures { KeepPartTold place id waits result count.old count.new table.old table.new self.old self.new }
    {
        let key = key_of(place, id);
        of_end(
            keep_part_on(&mut self.cpu, &self.shared, table, &key, waits),
            count,
        )
    }

    /// Throws a path away.
    pub fn discard_path(&mut self, table: &mut Paths, place: u32, id: u64) -> u32
        ensures { DiscardTold place id result table.old table.new self.old self.new }
    {
        of_there(discard_on(&mut self.cpu, &self.shared, table, &key_of(place, id)))
    }
    /// A path that was to be kept is lost as a whole.
    pub fn lose_path(&mut self, table: &mut Paths, place: u32, id: u64) -> u32
        ensures { LoseTold place id result table.old table.new self.old self.new }
    {
        of_there(lose_on(&mut self.cpu, &self.shared, table, &key_of(place, id)))
    }
}
