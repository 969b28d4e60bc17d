//! Loads of activity, one after another.
ghost use Rattle.std.specs.Prelude.{◌≡◌};
ghost use Rattle.dspec_deeds.specs.History.{scan};
ghost use Rattle.dspec_table.specs.Seats.{known, IsAt, set_up, cpu_of};

use dspec_deeds::CpuOp;
use dspec_record::Rec;
use dspec_table::{CpuSeat, Doing, Words};
use test_words::steps::load_activity;

/// So many loads of activity, each of a trace of the record: how many showed that the session runs.
pub fn load_all(words: &Words, seat: &mut CpuSeat, rec: Rec, number: u32) -> u32
    requires seat { IsAt words.now seat.old }
    requires idle { scan (set_up words.now) (cpu_of seat.old) (known seat.old).own ≡ 0 }
    ensures seat { IsAt words.now seat.new × (cpu_of seat.new ≡ cpu_of seat.old) }
    ensures idle { scan (set_up words.now) (cpu_of seat.new) (known seat.new).own ≡ 0 }
{
    let call = Doing {
        op: CpuOp::Trace(rec),
        fits: false,
        count: 0,
        mine: false,
    };
    let mut running: u32 = 0;
    for _ in 0..number {
        if load_activity(seat, words, &call) {
            running = running.wrapping_add(1);
        }
    }
    running
}
