//! The laws of the page, each a function without a body.
ghost use Rattle.std.specs.Prelude.{None, [], replicate};
ghost use Rattle.dspec_paths.specs.{Laws.AdoptingKeeps, Laws.BeginningKeeps, Laws.DiscardingKeeps, Laws.KeepingKeeps, Laws.KeepingPartKeeps, Laws.OneCpuDecidesItself, Laws.OneCpuHasFates};
ghost use Rattle.dspec_paths.specs.{Laws.OthersKeep, Laws.RecordsHaveFates, Laws.TurningKeeps, PathPage.KeepsPaths, PathPage.no_paths};

use crate::speculation_calls::SpeculationCalls;

/// A table in which no path has begun keeps the page, over a CPU that has made no call.
pub fn no_path_keeps()
    ensures { KeepsPaths no_paths (replicate 64 None) [] }
{}

/// A path that begins keeps the page, where its speculation is nobody's before.
pub fn beginning_keeps()
    ensures { BeginningKeeps }
{}

/// A path that goes on in a new speculation keeps the page, where that is nobody's before: what is thrown away for it is cut.
pub fn turning_keeps()
    ensures { TurningKeeps }
{}

/// A path that is kept, or waits for room, keeps the page: nothing of it was thrown away but what was cut, and no other path is touched.
pub fn keeping_keeps<B: SpeculationCalls>()
    ensures { (cpu : B) → KeepingKeeps (B.lacks_room cpu) }
{}

/// A path of which a part is kept keeps the page.
pub fn keeping_a_part_keeps<B: SpeculationCalls>()
    ensures { (cpu : B) → KeepingPartKeeps (B.lacks_room cpu) }
{}

/// A path that is thrown away keeps the page: nothing of it was copied, and no other path is touched.
pub fn discarding_keeps()
    ensures { DiscardingKeeps }
{}

/// A path that is another thread's from now on keeps the page.
pub fn adopting_keeps()
    ensures { AdoptingKeeps }
{}

/// What else the CPU does keeps the page, where it decides no speculation of a path.
pub fn others_keep()
    ensures { OthersKeep }
{}

/// No record of a path that was thrown away, or is lost as a whole, came out, and none that was cut; and none of a kept path was
/// thrown away, but those that were cut. So it is where the CPU decides itself what becomes of its buffers.
pub fn records_have_fates()
    ensures { RecordsHaveFates }
{}

/// In a session of one CPU that CPU decides itself, whatever legal list of deeds there was. A service throws away only a buffer without a
/// record: that of a speculation which was discarded before its first one.
pub fn one_cpu_decides_itself()
    ensures { OneCpuDecidesItself }
{}

/// So of such a session the page of paths says what became of each record.
pub fn one_cpu_has_fates()
    ensures { OneCpuHasFates }
{}
