ghost use Rattle.std.specs.Prelude.{ℕ, ◌≡◌, ◌<◌, ◌≤◌, ◌+◌};
ghost use Rattle.dspec_table.specs.Layout.{slot_place, slot_at, activity_place, group_place, ask_place, ack_place, HasPlaces};
ghost use Rattle.dspec_deeds.specs.declared.config.Config.{Config};

use dspec_deeds::Config;

/// Where activity lies: before the slots, so that its place is the same in every session.
pub(crate) const ACTIVITY_PLACE: usize = 8;

/// Where a slot's word lies.
#[inline(always)]
pub(crate) fn slot_place(slot: u32) -> usize
    ensures place { result ≡ slot_place slot }
    ensures slot { slot_at result ≡ slot }
{
    (slot as usize + 1) * 8
}

/// Where a CPU's ask lies.
pub(crate) fn ask_place(config: &Config, cpu: u32) -> usize
    requires places { HasPlaces config.now }
    requires cpu { cpu < config.now.cpus }
    ensures { result ≡ ask_place config.now cpu }
{
    let cpu = cpu as usize;
    let width = config.nspec as usize + 8;
    prove!(cpu * width <= 4544);
    config.nspec as usize * 8 + 16 + cpu * width
}

/// Where a CPU's acknowledgement of a slot lies.
pub(crate) fn ack_place(config: &Config, cpu: u32, slot: u32) -> usize
    requires places { HasPlaces config.now }
    requires cpu { cpu < config.now.cpus }
    requires slot { slot ≤ config.now.nspec }
    ensures { result ≡ ack_place config.now cpu slot }
{
    ask_place(config, cpu) + slot as usize
}

/// Law of the places, of eight words a line: eight places or more lie between the words of two slots, between activity and every
/// other word, between a slot's word and what lies in the group of a CPU, its ask and its acknowledgements, and between what lies
/// in the groups of two. So no line has words of both.
pub fn words_lie_apart()
    ensures slots { (s t : ℕ) → s < t → slot_place s + 8 ≤ slot_place t }
    ensures first { (s : ℕ) → 1 ≤ s → activity_place + 8 ≤ slot_place s }
    ensures last { (k : Config) (c s t : ℕ) → s ≤ k.nspec → slot_place s + 8 ≤ group_place k c + t }
    ensures activity { (k : Config) (c s : ℕ) → activity_place + 8 ≤ group_place k c + s }
    ensures asks { (k : Config) (c : ℕ) → ask_place k c ≡ group_place k c }
    ensures acks { (k : Config) (c s : ℕ) → ack_place k c s ≡ group_place k c + s }
    ensures groups { (k : Config) (c d s t : ℕ) → c < d → s ≤ k.nspec → group_place k c + s + 8 ≤ group_place k d + t }
{}
