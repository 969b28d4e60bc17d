ghost use Rattle.std.specs.{Mem.Slots.slots_items, Mem.Slots.slots_len, Mem.Slots.IsFull, Prelude.◌≡◌};
ghost use Rattle.dspec_table.specs.{Layout.HasPlaces, Layout.word_count, Showing.AreWords};

use atomic_table::Closed;
use dspec_deeds::Config;
use std::alloc::Global;

/// The words of a session that has ended.
pub struct LastWords {
    pub(crate) closed: Closed<u8, Global>,
    pub(crate) config: Config,
    pub ghost full: { IsFull closed.words },
    pub ghost words_is: { slots_len closed.words ≡ word_count config },
    pub ghost no_slots: { slots_len closed.slots ≡ 0 },
    pub ghost places: { HasPlaces config },
    pub ghost shown: { AreWords config (slots_items closed.words) },
}

impl Drop for LastWords {
    fn drop(self) {
        let LastWords { closed, config: _ } = self;
        closed.free();
    }
}
