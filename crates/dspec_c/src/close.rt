ghost use Rattle.std.specs.Prelude.{◌≡◌, length};
ghost use Rattle.dspec_table.specs.Seats.{set_up};
ghost use Rattle.dspec_cpu.specs.Lists.{words_of};
ghost use Rattle.dspec_record.specs.EnablingRows.{EnabledRows};
ghost use Rattle.dspec_c.specs.Whole.{AllInside, ClosedBy, HasRooms, IsEnding, firsts, insides, refusals};

use crate::cpu_place::CpuPlace;
use crate::gather::gather;
use dspec_cpu::{Cpu, Shared};
use dspec_record::Enablings;
use dspec_session_core::{Closed, Consumer, Session};

/// Ends a session whose CPUs are at their places, and whose consumer is home; and how many records each CPU refused.
pub fn close(
    shared: Shared,
    places: Vec<CpuPlace>,
    room: Vec<Cpu<Enablings>>,
    counts: Vec<u64>,
    consumer: Consumer,
) -> (Closed, Vec<u64>)
    requires ending { (schema : EnabledRows) × IsEnding shared schema (firsts places.items) consumer }
    requires inside { AllInside places.items }
    requires rooms { HasRooms (length places.items) room counts }
    ensures all { length result.0 ≡ (set_up (words_of shared)).cpus }
    ensures closed { ClosedBy shared (insides places.items) consumer result.0 }
    ensures counted { result.1.items ≡ refusals places.items }
{
    let (cpus, refused) = gather(places, room, counts);
    let session = Session {
        shared,
        cpus,
        consumer,
    };
    (session.finish(), refused)
}
