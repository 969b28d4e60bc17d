//! The times of stamps.

ghost use Rattle.std.specs.Prelude.{◌≡◌, All, IsSome, IsTrue, Some};
ghost use Rattle.dspec_ctf_reading.specs.Folders.Clocks.{time_of};
ghost use Rattle.dspec_ctf_reading.specs.declared.folder.clock.Base.TheVariants as base;

use crate::ClockText;

/// From when on times are counted.
#[derive(Debug, Clone, Copy, PartialEq, Eq)]
pub enum Base {
    /// From the beginning of 1970 on, in Coordinated Universal Time.
    Epoch,
    /// From the beginning of the clock on.
    Clock,
}

/// The time of a stamp in nanoseconds, what is less than one left out. From the beginning of 1970 on where that is asked for and told by
/// the clock, else from the clock's beginning on. None of a clock without ticks in a second.
pub fn nanoseconds(clock: &ClockText<'_>, base: Base, stamp: u64) -> Option<u128>
    ensures { result ≡ time_of clock.now base stamp }
{
    let (seconds, ticks) = match (base, clock.start) {
        (Base::Epoch, Some(start)) => start,
        _ => (0, 0),
    };
    if clock.frequency == 0 {
        return None;
    }
    let ticks = u128::from(ticks) + u128::from(stamp);
    Some(u128::from(seconds) * 1_000_000_000 + ticks * 1_000_000_000 / u128::from(clock.frequency))
}

/// Whether stamps of both are ticks of one clock, by its uuid.
fn is_one_clock(one: &ClockText<'_>, other: &ClockText<'_>) -> bool {
    one.uuid.is_some() && one.uuid == other.uuid && one.frequency == other.frequency
}

/// From when on the times of all these clocks are counted, so that they can be compared: 1970 where each tells its beginning, that of the
/// clock where they are one. None where neither is so, or there is no clock.
pub fn base_of(clocks: &[ClockText<'_>]) -> Option<Base> {
    let first = clocks.first()?;
    if clocks.iter().all(|clock| clock.start.is_some()) {
        return Some(Base::Epoch);
    }
    if clocks.len() == 1 || clocks.iter().all(|clock| is_one_clock(first, clock)) {
        return Some(Base::Clock);
    }
    None
}
