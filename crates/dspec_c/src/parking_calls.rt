//! The exports of a ring of parked blocks. The ring is in a handle of its own, beside the CPU's.

ghost use Rattle.std.specs.Prelude.{◌≡◌, ◌⊎◌, true, false};
ghost use Rattle.dspec_c.specs.Handles.{held_in, is_full};
ghost use Rattle.dspec_c.specs.ParkingCalls.{AtTold, CountsTold, ExpireTold, HoldsEmptyRing, ParkAnswers, ParkOnCpu, PlacesTold, TakeTold, ToldOnRing, block_room, parked_status, parked_told};

use crate::boxed::Boxed;
use crate::handle::{Handle, HandleContents, lent};
use crate::held::HandleValue;
use crate::parked::{CParked, CParkedCounts, CPassed};
use crate::statuses::{BAD_HANDLE, FULL_HANDLE, NO_MEMORY, OK, TOO_LONG, TOO_SMALL, VOID, WORN};
use dspec_parking::{Parked, Parking, ParkingKey};
use std::alloc::Global;

/// A ring of so many bytes, and so many blocks at the most, in which nothing was parked.
#[unsafe(no_mangle)]
pub extern "C" fn dspec_parking_new(
    alloc: Global,
    parking: &mut Handle,
    bytes: usize,
    most_blocks: usize,
) -> u32
    ensures full { is_full parking.old ≡ true → (result ≡ 18) × (parking.new ≡ parking.old) }
    ensures made { result ≡ 0 → (is_full parking.new ≡ true) × HoldsEmptyRing bytes most_blocks (held_in parking.new) }
    ensures kept { result ≡ 7 → parking.new ≡ parking.old }
    ensures either { is_full parking.old ≡ false → (result ≡ 0) ⊎ (result ≡ 7) }
{
    if parking.is_held() {
        return FULL_HANDLE;
    }
    let Ok(made) = Parking::new(alloc, bytes, most_blocks) else {
        return NO_MEMORY;
    };
    let Ok(ring) = Boxed::new(alloc, made) else {
        return NO_MEMORY;
    };
    let Ok(room) = HandleContents::room(alloc) else {
        return NO_MEMORY;
    };
    parking.put(room, HandleValue::Parking(ring));
    OK
}

// What came of a block that was to be parked.
fn of_parked(answer: Parked, gone: &mut CPassed) -> u32
    ensures status { result ≡ parked_status answer }
    ensures told { gone.new ≡ parked_told answer gone.old }
{
    match answer {
        Parked::Stands(passed) => {
            *gone = CPassed::of(passed);
            OK
        }
        Parked::Refused => TOO_LONG,
        Parked::Worn => WORN,
    }
}

// The block is parked that a CPU has of a slot.
#[inline(always)]
fn park_on(
    ring: &mut Parking,
    cpu: &mut Handle,
    slot: u32,
    key: ParkingKey,
    stamp: u64,
    gone: &mut CPassed,
) -> u32
    ensures answers { ParkOnCpu slot key stamp gone.old gone.new ring.old ring.new (held_in cpu.old) result (held_in cpu.new) }
    ensures stays { is_full cpu.new ≡ is_full cpu.old }
{
    lent!(cpu as Cpu(side), BAD_HANDLE => of_parked(side.park(ring, slot, key, stamp), gone))
}

/// Parks a copy of the records that a CPU has of a slot's speculation.
#[unsafe(no_mangle)]
pub extern "C" fn dspec_parking_park(
    parking: &mut Handle,
    cpu: &mut Handle,
    slot: u32,
    key_high: u64,
    key_low: u64,
    stamp: u64,
    gone: &mut CPassed,
) -> u32
    ensures answers { ParkAnswers slot (record { high = key_high; low = key_low }) stamp gone.old gone.new (held_in parking.old) (held_in cpu.old) result (held_in parking.new) (held_in cpu.new) }
    ensures ring { is_full parking.new ≡ is_full parking.old }
    ensures side { is_full cpu.new ≡ is_full cpu.old }
{
    let key = ParkingKey {
        high: key_high,
        low: key_low,
    };
    lent!(parking as Parking(ring), BAD_HANDLE => park_on(ring.lend(), cpu, slot, key, stamp, gone))
}

/// How many places there are, those of kept blocks with them.
#[unsafe(no_mangle)]
pub extern "C" fn dspec_parking_places(parking: &mut Handle, count: &mut usize) -> u32
    ensures answers { ToldOnRing (PlacesTold result) count.old count.new (held_in parking.old) result (held_in parking.new) }
    ensures stays { is_full parking.new ≡ is_full parking.old }
{
    lent!(parking as Parking(ring), BAD_HANDLE => {
        *count = ring.lend().places();
        OK
    })
}

fn at(ring: &Parking, place: usize, block: &mut CParked) -> u32
    ensures { AtTold place result block.old block.new ring.now ring.now }
{
    let Some(found) = ring.at(place) else {
        return VOID;
    };
    *block = CParked::of(&found);
    OK
}

/// The block that stands at a place.
#[unsafe(no_mangle)]
pub extern "C" fn dspec_parking_at(parking: &mut Handle, place: usize, block: &mut CParked) -> u32
    ensures answers { ToldOnRing (AtTold place result) block.old block.new (held_in parking.old) result (held_in parking.new) }
    ensures stays { is_full parking.new ≡ is_full parking.old }
{
    lent!(parking as Parking(ring), BAD_HANDLE => at(ring.lend(), place, block))
}

fn take(ring: &mut Parking, place: usize, room: &mut [u8], block: &mut CParked) -> u32
    ensures { TakeTold place result (block_room room.old block.old) (block_room room.new block.new) ring.old ring.new }
{
    let Some(found) = ring.at(place) else {
        return VOID;
    };
    *block = CParked::of(&found);
    match ring.take(place, room) {
        Some(_) => OK,
        None => TOO_SMALL,
    }
}

/// The block that stands at a place comes out.
#[unsafe(no_mangle)]
pub extern "C" fn dspec_parking_take(
    parking: &mut Handle,
    place: usize,
    room: &mut [u8],
    block: &mut CParked,
) -> u32
    ensures answers { ToldOnRing (TakeTold place result) (block_room room.old block.old) (block_room room.new block.new)
        (held_in parking.old) result (held_in parking.new) }
    ensures stays { is_full parking.new ≡ is_full parking.old }
{
    lent!(parking as Parking(ring), BAD_HANDLE => take(ring.lend(), place, room, block))
}

/// The oldest blocks expire.
#[unsafe(no_mangle)]
pub extern "C" fn dspec_parking_expire(
    parking: &mut Handle,
    before: u64,
    most: usize,
    gone: &mut CPassed,
) -> u32
    ensures answers { ToldOnRing (ExpireTold before most result) gone.old gone.new (held_in parking.old) result (held_in parking.new) }
    ensures stays { is_full parking.new ≡ is_full parking.old }
{
    lent!(parking as Parking(ring), BAD_HANDLE => {
        *gone = CPassed::of(ring.lend().expire(before, most));
        OK
    })
}

/// What became of the blocks that were parked.
#[unsafe(no_mangle)]
pub extern "C" fn dspec_parking_counts(parking: &mut Handle, counts: &mut CParkedCounts) -> u32
    ensures answers { ToldOnRing (CountsTold result) counts.old counts.new (held_in parking.old) result (held_in parking.new) }
    ensures stays { is_full parking.new ≡ is_full parking.old }
{
    lent!(parking as Parking(ring), BAD_HANDLE => {
        *counts = CParkedCounts::of(ring.lend().counts());
        OK
    })
}
