ghost use Rattle.std.specs.Prelude.{◌≡◌, ◌<◌, ◌≤◌, ◌^◌, []};
ghost use Rattle.dspec_table.specs.{Holders.of_cpu, Holders.of_consumer, Layout.word_count};

use crate::rule::{AnySeat, Board};
use dspec_deeds::Config;

/// The shared words of a session. Every thread steps on them through a `&`, with a seat of its own.
#[derive(Drop)]
pub struct Words {
    pub(crate) board: Board,
    pub(crate) config: Config,
    pub ghost key_is: { board.shared.key ≡ config },
    pub ghost some_slot: { 1 ≤ config.nspec },
    pub ghost few_slots: { config.nspec ≤ 63 },
    pub ghost few_cpus: { config.cpus ≤ 64 },
    pub ghost issues: { config.max_issues ≤ 2 ^ 57 },
    pub ghost no_slots: { board.shared.table_id.slots ≡ 0 },
    pub ghost words_is: { board.shared.table_id.words ≡ word_count config },
}

/// A CPU's seat at the words: what it has done and seen, and how many steps it made on which words. It has no bytes but the
/// CPU's number.
#[derive(Drop)]
pub struct CpuSeat {
    pub(crate) seat: AnySeat,
    pub(crate) cpu: u32,
    pub ghost bare: { seat.me.1 ≡ [] },
    pub ghost who_is: { seat.me.0.who ≡ of_cpu cpu },
    pub ghost is_one: { cpu < seat.me.0.config.cpus },
    pub ghost joins_none: { seat.me.0.also ≡ [] },
    pub ghost told_none: { seat.me.0.told ≡ [] },
}

/// The consumer's seat at the words.
#[derive(Drop)]
pub struct ConsumerSeat {
    pub(crate) seat: AnySeat,
    pub ghost bare: { seat.me.1 ≡ [] },
    pub ghost who_is: { seat.me.0.who ≡ of_consumer },
    pub ghost joins_none: { seat.me.0.also ≡ [] },
    pub ghost told_none: { seat.me.0.told ≡ [] },
}
