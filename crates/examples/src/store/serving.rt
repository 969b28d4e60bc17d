ghost use Rattle.std.specs.Prelude.{◌≡◌};
ghost use Rattle.dspec_cpu.specs.Lists.{schema_of};
ghost use Rattle.dspec.specs.Lanes.{place_of};
ghost use Rattle.examples.specs.StoreProbes.{AreStoreProbesOf};

use crate::store::board::{ACCOUNTS, Board, owner_of};
use crate::store::probes::{ABORTED, DONE, SLOW, StoreProbes};
use dspec::{Enablings, Lane, Path, Recording, Text, Work};

/// How many workers there are. Worker W makes the transfers W, W + 3, W + 6, ..
pub const WORKERS: u32 = 3;
/// How many transfers each makes.
const ROUNDS: u64 = 40;
/// A transfer that waits more often is slow.
const FEW: u64 = 5;

/// A number that looks random, of another.
fn noise_of(number: u64) -> u64 {
    let mixed = number.wrapping_add(1).wrapping_mul(0xff51_afd7_ed55_8ccd);
    (mixed ^ (mixed >> 33)).wrapping_mul(0xc4ce_b9fe_1a85_ec53) >> 8
}

/// A transfer that the generator makes up, of two accounts of its worker.
#[derive(Clone, Copy)]
struct Transfer {
    number: u32,
    worker: u8,
    from: u16,
    to: u16,
    amount: u64,
    waits: u64,
}

impl Transfer {
    /// The transfer of a worker in a round.
    fn of(worker: u64, round: u64) -> Transfer {
        let number = round.wrapping_mul(u64::from(WORKERS)).wrapping_add(worker);
        let noise = noise_of(number);
        let first = worker.wrapping_mul(ACCOUNTS);
        Transfer {
            number: (number % (1 << 32)) as u32,
            worker: (worker % (1 << 8)) as u8,
            from: (first.wrapping_add(noise % ACCOUNTS) % (1 << 16)) as u16,
            to: (first.wrapping_add(noise / 64 % ACCOUNTS) % (1 << 16)) as u16,
            amount: noise / 4096 % 80,
            waits: (noise / (1 << 20) % 8).wrapping_mul(noise / (1 << 24) % 2),
        }
    }
}

/// What all threads know.
#[derive(Drop)]
pub struct Server {
    pub board: Board,
    pub probes: StoreProbes,
}

/// The stamp so many ticks later. A tick is as many microseconds as there are workers, so that no two have one stamp.
fn later(clock: &mut u64, ticks: u64) -> u64 {
    *clock = clock.wrapping_add(ticks.wrapping_mul(u64::from(WORKERS)));
    *clock
}

/// Takes the amount from its account, where the balance suffices.
fn withdraw(
    lane: &mut Lane<'_, Enablings>,
    path: &Path,
    server: &Server,
    clock: &mut u64,
    made: Transfer,
) -> bool
    requires of { AreStoreProbesOf server.now.probes (schema_of lane.old.cpu.now) }
    ensures { place_of lane.new ≡ place_of lane.old }
{
    let Transfer { number, from, .. } = made;
    let Server { board, probes } = server;
    let balance = board.read(from);
    probes
        .read
        .record_in(lane, path, later(clock, 1), (number, from, balance));
    if balance < made.amount {
        return false;
    }
    let left = balance - made.amount;
    board.write(from, left);
    probes
        .write
        .record_in(lane, path, later(clock, 1), (number, from, left));
    true
}

/// Waits for the other account.
fn wait(
    lane: &mut Lane<'_, Enablings>,
    path: &Path,
    server: &Server,
    clock: &mut u64,
    made: Transfer,
)
    requires of { AreStoreProbesOf server.now.probes (schema_of lane.old.cpu.now) }
    ensures { place_of lane.new ≡ place_of lane.old }
{
    for _ in 0..made.waits {
        let stamp = later(clock, 5);
        server
            .probes
            .wait
            .record_in(lane, path, stamp, (made.number, made.to));
    }
}

/// Adds the amount to the other account.
fn deposit(
    lane: &mut Lane<'_, Enablings>,
    path: &Path,
    server: &Server,
    clock: &mut u64,
    made: Transfer,
)
    requires of { AreStoreProbesOf server.now.probes (schema_of lane.old.cpu.now) }
    ensures { place_of lane.new ≡ place_of lane.old }
{
    let Transfer { number, to, .. } = made;
    let Server { board, probes } = server;
    let balance = board.read(to);
    probes
        .read
        .record_in(lane, path, later(clock, 1), (number, to, balance));
    let sum = balance.wrapping_add(made.amount);
    board.write(to, sum);
    probes
        .write
        .record_in(lane, path, later(clock, 1), (number, to, sum));
}

/// The steps of a transfer, and its outcome.
fn make_transfer(
    lane: &mut Lane<'_, Enablings>,
    path: &Path,
    server: &Server,
    clock: &mut u64,
    made: Transfer,
) -> u8
    requires of { AreStoreProbesOf server.now.probes (schema_of lane.old.cpu.now) }
    ensures { place_of lane.new ≡ place_of lane.old }
{
    let stamp = later(clock, 1);
    let owner = Text::of(owner_of(made.from));
    server
        .probes
        .begin
        .record_in(lane, path, stamp, (made.number, made.worker, owner));
    if !withdraw(lane, path, server, clock, made) {
        return ABORTED;
    }
    wait(lane, path, server, clock, made);
    deposit(lane, path, server, clock, made);
    if made.waits > FEW { SLOW } else { DONE }
}

/// A transfer on a path, which is kept where it was aborted or slow.
fn transact(lane: &mut Lane<'_, Enablings>, server: &Server, clock: &mut u64, made: Transfer)
    requires of { AreStoreProbesOf server.now.probes (schema_of lane.old.cpu.now) }
    ensures { place_of lane.new ≡ place_of lane.old }
{
    let path = lane.path();
    let outcome = make_transfer(lane, &path, server, clock, made);
    let stamp = later(clock, 1);
    server
        .probes
        .end
        .record_in(lane, &path, stamp, (made.number, outcome));
    if outcome == DONE {
        path.discard(lane);
    } else {
        path.commit(lane);
    }
}

impl Work<Enablings> for Server {
    fn work(&self, lane: &mut Lane<'_, Enablings>) {
        if !self.probes.are_on(lane) {
            return;
        }
        let worker = u64::from(lane.number());
        let mut clock = worker;
        for round in 0..ROUNDS {
            transact(lane, self, &mut clock, Transfer::of(worker, round));
            lane.service();
        }
    }
}
