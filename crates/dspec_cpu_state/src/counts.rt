ghost use Rattle.std.specs.Prelude.{◌≡◌, ◌<◌, ◌≤◌, ◌^◌, ℕ, []};
ghost use Rattle.dspec_deeds.specs.{FateKinds.count_of, declared.config.Config.Config};
ghost use Rattle.dspec_cpu_state.specs.Counting.{IsRoomy, HasRoom, counts_of, one_more_worn, report_of, with_decided, with_fate, with_missed, with_opening, with_scanned, with_spoken, with_traced};

use dspec_deeds::{DecideFate, Opening, Report, SpeculateFate, TraceFate};

/// What a CPU has counted: records offered and what became of them, and events. The records held are what is left.
#[derive(Clone, Copy, Debug)]
pub struct Counts {
    /// Records of the calls of trace and speculate that were not worn.
    pub offered: u64,
    /// Records of trace with no room.
    pub dropped: u64,
    /// Records of speculate with no room.
    pub specdropped: u64,
    /// Records of committed blocks with no room, none of them copied.
    pub lost: u64,
    /// Records that were kept speculatively and thrown away.
    pub discarded: u64,
    /// Records offered to nothing: the session was stopped, or the speculation was not open.
    pub void: u64,
    /// Events, not records: each refusal of a principal buffer, of a record or of a block.
    pub drops: u64,
    /// Records in the principal buffers, a committed block's with it. It stands apart from those offered: as neighbours the two would be
    /// counted by wide loads and stores, which are more of them.
    pub accepted: u64,
    /// Calls of speculation that were given no slot, where none waited to be released.
    pub unavailable: u64,
    /// Calls of speculation that were given no slot, where one waited to be released.
    pub busy: u64,
    /// Calls after the stop of the session.
    pub stopped: u64,
    /// Calls after the most that the CPU may make.
    pub worn: u64,
}

impl Counts {
    /// Nothing counted.
    pub fn zero() -> Self
        ensures { (k : Config) (c : ℕ) → result ≡ counts_of k c 0 [] }
    {
        Counts {
            offered: 0,
            accepted: 0,
            dropped: 0,
            specdropped: 0,
            lost: 0,
            discarded: 0,
            void: 0,
            drops: 0,
            unavailable: 0,
            busy: 0,
            stopped: 0,
            worn: 0,
        }
    }

    /// Counts a record that was traced.
    #[inline]
    pub fn trace(&mut self, fate: TraceFate)
        requires room { IsRoomy self.old }
        ensures { self.new ≡ with_traced fate self.old }
    {
        self.offered += 1;
        match fate {
            TraceFate::Kept => self.accepted += 1,
            TraceFate::Dropped => {
                self.dropped += 1;
                self.drops += 1;
            }
            TraceFate::Stopped => {
                self.void += 1;
                self.stopped += 1;
            }
        }
    }

    /// Counts a record that was offered to a speculation.
    #[inline]
    pub fn speculate(&mut self, fate: SpeculateFate)
        requires room { IsRoomy self.old }
        ensures { self.new ≡ with_spoken fate self.old }
    {
        self.offered += 1;
        match fate {
            SpeculateFate::Kept => {}
            SpeculateFate::Dropped => self.specdropped += 1,
            SpeculateFate::Void => self.void += 1,
            SpeculateFate::Stopped => {
                self.void += 1;
                self.stopped += 1;
            }
        }
    }

    /// Counts a decision, or a settlement. The number of records is one of 32 bits.
    #[inline]
    pub fn decide(&mut self, fate: DecideFate)
        requires room { count_of fate < 2 ^ 32 → HasRoom fate self.old }
        ensures { self.new ≡ with_decided fate self.old }
    {
        match fate {
            DecideFate::Copied(count) => self.accepted += count as u64,
            DecideFate::Lost(count) => {
                self.lost += count as u64;
                self.drops += 1;
            }
            DecideFate::Thrown(count) => self.discarded += count as u64,
            DecideFate::Void => {}
            DecideFate::Stopped => self.stopped += 1,
        }
    }

    /// Counts a call of speculation.
    #[inline]
    pub fn open(&mut self, answer: &Opening)
        requires room { IsRoomy self.old }
        ensures { self.new ≡ with_opening answer.now self.old }
    {
        match answer {
            Opening::Unavailable => self.unavailable += 1,
            Opening::Busy => self.busy += 1,
            Opening::Stopped => self.stopped += 1,
            Opening::Id(_) | Opening::Worn => {}
        }
    }

    /// Counts the beginning of a scan.
    #[inline]
    pub fn scan(&mut self, running: bool)
        requires room { IsRoomy self.old }
        ensures { self.new ≡ with_scanned running self.old }
    {
        if !running {
            self.stopped += 1;
        }
    }

    /// Counts a slot that was missed: where it is the last of its scan, that fails.
    #[inline]
    pub fn miss(&mut self, last: bool, busy: bool)
        requires room { IsRoomy self.old }
        ensures { self.new ≡ with_missed last busy self.old }
    {
        if last && busy {
            self.busy += 1;
        } else if last {
            self.unavailable += 1;
        }
    }

    /// Counts a call that was answered Worn.
    #[inline]
    pub fn wear(&mut self)
        ensures { self.new ≡ record self.old { worn = one_more_worn self.old.worn } }
    {
        if self.worn < u64::MAX {
            self.worn += 1;
        }
    }

    /// The report of what was counted: the records that have no other fate are held.
    pub fn report(&self) -> Report
        requires enough { with_fate self.now ≤ self.now.offered }
        ensures { result ≡ report_of self.now }
    {
        let fated = self.accepted
            + self.dropped
            + self.specdropped
            + self.lost
            + self.discarded
            + self.void;
        Report {
            offered: self.offered,
            accepted: self.accepted,
            dropped: self.dropped,
            specdropped: self.specdropped,
            lost: self.lost,
            discarded: self.discarded,
            void: self.void,
            held: self.offered - fated,
            drops: self.drops,
            unavailable: self.unavailable,
            busy: self.busy,
            stopped: self.stopped,
            worn: self.worn,
        }
    }
}
