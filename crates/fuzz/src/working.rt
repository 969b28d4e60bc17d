ghost use Rattle.std.specs.Prelude.{◌≡◌};
ghost use Rattle.dspec_cpu.specs.Standing.{identity};
ghost use Rattle.fuzz.specs.Lent.{CanBeCalled};

use crate::choosing::Player;
use crate::planning::SeedPlan;
use crate::sharing::SharedState;
use dspec_cpu::{Cpu, Shared};
use dspec_record::Enablings;
use dspec_replay::{call_cpu, is_accepted};
use dspec_samples::LoggedCall;
use std::alloc::Global;
use std::hint::spin_loop;
use std::thread;

/// How often a worker looks whether the others have come: threads that come late don't keep it for ever.
const LOOKS: u32 = 100_000;

/// Waits until all workers have come, so that their calls meet. Where they don't, since threads are refused and workers run one after
/// another, the first alone waits in vain.
fn gather(board: &SharedState, workers: u64) {
    board.come();
    for _ in 0..LOOKS {
        if board.is_complete(workers) {
            return;
        }
        thread::yield_now();
    }
    board.give_up(workers);
}

/// Does nothing for a while, as a rule for none.
fn rest(player: &mut Player) {
    for _ in 0..player.pause() {
        spin_loop();
    }
    if player.makes_way() {
        thread::yield_now();
    }
}

/// A worker makes its calls on its CPU.
fn make_calls(
    cpu: &mut Cpu<Enablings>,
    shared: &Shared,
    board: &SharedState,
    plan: &SeedPlan,
    player: &mut Player,
)
    requires { CanBeCalled shared.now board.now.schema cpu.old }
    ensures { identity cpu.new ≡ identity cpu.old }
{
    for _round in 0..plan.calls {
        let op = player.next(board);
        if is_accepted(&board.schema, &op) {
            let answer = call_cpu(shared, &board.schema, cpu, &op);
            player.heard(board, &LoggedCall { op, answer });
        }
        rest(player);
    }
}

/// A worker comes, makes its calls, leaves its log, and goes.
pub fn work(
    cpu: &mut Cpu<Enablings>,
    shared: &Shared,
    board: &SharedState,
    plan: &SeedPlan,
    alloc: Global,
    worker: u32,
)
    requires { CanBeCalled shared.now board.now.schema cpu.old }
    ensures { identity cpu.new ≡ identity cpu.old }
{
    let mut player = Player::new(alloc, plan, worker);
    gather(board, u64::from(plan.config.cpus));
    make_calls(cpu, shared, board, plan, &mut player);
    board.leave(worker, player.into_log());
}
