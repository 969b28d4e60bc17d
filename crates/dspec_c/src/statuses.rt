//! What every call answers, as a number; `dspec.h` has their names.

ghost use Rattle.std.specs.Prelude.{◌≡◌, Some};
ghost use Rattle.dspec_c.specs.Statuses.{asked_status, bad_handle, committed_number, committed_status, decided_number, decided_status, id_or_zero, opened_number, opening_status, spoken_status};
ghost use Rattle.dspec_c.specs.Statuses.{start_status, traced_status};

use dspec_deeds::{Decided, Opening, Spoken, StartFault, Traced};
use dspec_word::SpecId;

pub const OK: u32 = 0;

pub const NO_MEMORY: u32 = 7;

pub const BAD_POLICY: u32 = 8;

pub const BAD_WIDTH: u32 = 9;

pub const TOO_MANY_FIELDS: u32 = 10;

pub const TOO_MANY_ENABLINGS: u32 = 11;

pub const BAD_RECORD: u32 = 16;

pub const BAD_HANDLE: u32 = 17;

pub const FULL_HANDLE: u32 = 18;

pub const NO_SUCH_CPU: u32 = 19;

pub const NOT_HOME: u32 = 20;

pub const NO_BATCH: u32 = 21;

pub const OUT: u32 = 22;

pub const TOO_SMALL: u32 = 23;

pub const TOO_LONG: u32 = 26;

pub const DROPPED: u32 = 32;

pub const STOPPED: u32 = 33;

pub const WORN: u32 = 34;

pub const VOID: u32 = 35;

pub const UNAVAILABLE: u32 = 36;

pub const BUSY: u32 = 37;

pub const LOST: u32 = 38;

pub const GOES_ON: u32 = 39;

pub const PATH_LOST: u32 = 40;

/// What a call of a CPU answers where its handle holds none: a call of its own, by which the compiler knows that this is rare.
#[cold]
#[inline(never)]
pub fn bad_handle() -> u32
    ensures { result ≡ bad_handle }
{
    BAD_HANDLE
}

/// Why a session didn't start.
pub fn of_start(fault: StartFault) -> u32
    ensures { result ≡ start_status fault }
{
    match fault {
        StartFault::Cpus => 1,
        StartFault::Specs => 2,
        StartFault::BufSize => 3,
        StartFault::SpecSize => 4,
        StartFault::Issues => 5,
        StartFault::Calls => 6,
        StartFault::Memory => NO_MEMORY,
    }
}

/// What a trace of a record of the schema answered.
#[inline(always)]
pub fn of_traced(answer: Traced) -> u32
    ensures { result ≡ traced_status (Some answer) }
{
    match answer {
        Traced::Kept => OK,
        Traced::Dropped => DROPPED,
        Traced::Stopped => STOPPED,
        Traced::Worn => WORN,
    }
}

/// What a record of the schema that was offered to a speculation was answered.
#[inline(always)]
pub fn of_spoken(answer: Spoken) -> u32
    ensures { result ≡ spoken_status (Some answer) }
{
    match answer {
        Spoken::Kept => OK,
        Spoken::Dropped => DROPPED,
        Spoken::Void => VOID,
        Spoken::Stopped => STOPPED,
        Spoken::Worn => WORN,
    }
}

/// What an opening answered, whose identifier goes out where there is one.
pub fn of_opening(answer: Opening, id: &mut u64) -> u32
    ensures status { result ≡ opening_status answer }
    ensures id { id.new ≡ opened_number answer id.old }
{
    match answer {
        Opening::Id(opened) => {
            *id = opened.raw();
            OK
        }
        Opening::Unavailable => UNAVAILABLE,
        Opening::Busy => BUSY,
        Opening::Stopped => STOPPED,
        Opening::Worn => WORN,
    }
}

/// The number of an identifier; 0 where there is none.
pub fn number_of(found: Option<SpecId>) -> u64
    ensures { result ≡ id_or_zero found }
{
    match found {
        Some(id) => id.raw(),
        None => 0,
    }
}

/// What a commit or a discard answered, whose number of records goes out where there is one.
pub fn of_decided(answer: Decided, count: &mut u32) -> u32
    ensures status { result ≡ decided_status answer }
    ensures count { count.new ≡ decided_number answer count.old }
{
    match answer {
        Decided::Copied(n) => {
            *count = n;
            OK
        }
        Decided::Lost(n) => {
            *count = n;
            LOST
        }
        Decided::Thrown(n) => {
            *count = n;
            OK
        }
        Decided::Void => VOID,
        Decided::Stopped => STOPPED,
        Decided::Worn => WORN,
    }
}

/// What a commit answered that isn't made where it would lose the CPU's block; None: it would.
pub fn of_committed(answer: Option<Decided>, count: &mut u32) -> u32
    ensures status { result ≡ committed_status answer }
    ensures count { count.new ≡ committed_number answer count.old }
{
    match answer {
        Some(decided) => of_decided(decided, count),
        None => BUSY,
    }
}

/// Whether there is such a CPU to be asked.
pub fn of_asked(found: bool) -> u32
    ensures { result ≡ asked_status found }
{
    if found { OK } else { NO_SUCH_CPU }
}
