ghost use Rattle.std.specs.Prelude.{◌≡◌, if◌then◌else◌};
ghost use Rattle.dspec_deeds.specs.declared.calls.CpuOp.TheVariants as op;
ghost use Rattle.dspec_deeds.specs.declared.deed.Deed.TheVariants.{Commit, Discard};
ghost use Rattle.dspec_table.specs.Seats.{known};
ghost use Rattle.dspec_cpu.specs.{Between.DecidesBetween, Calls.is_worn_decided, Keeping.CallLeaves, Lists.IsSameCpu, Lists.config_of, Lists.number_in, Lists.seat_of, Lists.words_of};
ghost use Rattle.dspec_cpu.specs.{Stops.is_stopped_decided, Touching.of_slot};

use crate::callable::Callable;
use crate::cpu::Cpu;
use crate::listed::Listed;
use crate::parts::CpuParts;
use crate::reaching::{Reach, SlotTurn, go_on_as};
use crate::shared::Shared;
use dspec_cpu_state::committed_as;
use dspec_deeds::{CpuOp, DecideFate, Decided};
use dspec_record::Schema;
use dspec_table::Doing;
use dspec_word::{Code, SpecId};
use std::marker::Brand;

// The answer that tells what becomes of a block.
fn answer_of(fits: bool, count: u32) -> Decided
    ensures { result ≡ (if fits then Decided.Copied count else Decided.Lost count) }
{
    if fits {
        Decided::Copied(count)
    } else {
        Decided::Lost(count)
    }
}

// The call that decides, a commit or a discard.
#[inline(always)]
fn op_of(commits: bool, id: SpecId) -> CpuOp
    ensures { result ≡ (if commits then op.Commit id else op.Discard id) }
{
    if commits {
        CpuOp::Commit(id)
    } else {
        CpuOp::Discard(id)
    }
}

#[inline(always)]
fn turn_of(commits: bool) -> SlotTurn
    ensures { result ≡ (if commits then SlotTurn.Commit else SlotTurn.Discard) }
{
    if commits {
        SlotTurn::Commit
    } else {
        SlotTurn::Discard
    }
}

impl<S: Schema> CpuParts<S> {
    // As `Cpu::commit`, or `Cpu::discard`.
    #[inline(always)]
    pub(crate) fn decide(&mut self, shared: &Shared, id: SpecId, commits: bool) -> Decided
        requires ready { ⟦<CpuParts<S> as Callable>⟧.is_ready (words_of shared.now) self.old }
        ensures ready { ⟦<CpuParts<S> as Callable>⟧.is_ready (words_of shared.now) self.new }
        ensures same { IsSameCpu self.old self.new }
        ensures leaves { CallLeaves (is_worn_decided result) (is_stopped_decided result) 5 (of_slot (config_of self.old) id) self.old self.new }
        ensures decides { DecidesBetween ⟦<Cpu<S> as Listed>⟧.has_list (if commits then Commit (number_in self.old) id else Discard (number_in self.old) id) id result self.old self.new }
    {
        if self.side.calls >= self.config.max_calls {
            self.side.counts.wear();
            return Decided::Worn;
        }
        let inside = self.is_inside(id);
        let mine = self.side.marks.has(id);
        let (fits, count) = self.measure_slot(id, mine, inside);
        let op = op_of(commits, id);
        let doing = Doing {
            op,
            fits,
            count,
            mine,
        };
        let words = &shared.words;
        let turn = turn_of(commits);
        let reached = go_on_as::<Brand>(&mut self.seat, words, id, inside, turn, &doing);
        match reached {
            Reach::Stopped => {
                self.side.leave_undecided::<S>(DecideFate::Stopped);
                Decided::Stopped
            }
            Reach::Void => {
                self.side.leave_undecided::<S>(DecideFate::Void);
                Decided::Void
            }
            Reach::Granted => unreachable!(),
            Reach::Done(to) => {
                if !commits {
                    self.side.decide::<S>(id, mine, DecideFate::Thrown(count));
                    return Decided::Thrown(count);
                }
                self.side.decide::<S>(id, mine, committed_as(fits, count));
                let answer = answer_of(fits, count);
                match to.code() {
                    Code::Committing => {
                        self.seat.release_word(&shared.words, id.slot(), &doing);
                        answer
                    }
                    _ => answer,
                }
            }
        }
    }
}
