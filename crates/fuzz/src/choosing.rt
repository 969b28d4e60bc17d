use crate::planning::{SeedPlan, dice_of};
use crate::sharing::SharedState;
use dspec_deeds::{Answer, CpuOp, Decided, Opening, Spoken, Traced};
use dspec_record::Rec;
use dspec_samples::{Dice, KINDS, Log, LoggedCall, identifier_in, record_of};
use dspec_word::SpecId;
use std::alloc::Global;

/// Who chooses the calls of a CPU.
#[derive(Drop)]
pub struct Player {
    cpu: u32,
    plan: SeedPlan,
    dice: Dice,
    log: Log,
    /// The call that comes next, where the one before left one to make.
    owed: Option<CpuOp>,
    /// Whether the call after this one has to wait for others.
    waits: bool,
    /// The speculation that was offered to last.
    speculates_to: SpecId,
    /// A speculation that was decided.
    decided: SpecId,
}

impl Player {
    /// The player of a CPU, before its first call.
    pub fn new(alloc: Global, plan: &SeedPlan, cpu: u32) -> Player {
        Player {
            cpu,
            plan: *plan,
            dice: dice_of(plan.seed, u64::from(cpu)),
            log: Log::new(alloc),
            owed: None,
            waits: false,
            speculates_to: SpecId::NONE,
            decided: SpecId::NONE,
        }
    }

    /// The record of the next call.
    fn record(&mut self) -> Rec {
        let kind = self.dice.roll(KINDS);
        let rec = record_of(self.cpu, self.log.calls.len(), kind);
        if !self.plan.stamped {
            return rec;
        }
        Rec::stamped(rec.epid(), self.dice.word(), rec.values()).unwrap_or(rec)
    }

    /// A place of the board.
    fn place(&mut self) -> u32 {
        self.dice.roll(self.plan.places.max(1))
    }

    /// A commit or a discard.
    fn decision(&mut self, id: SpecId) -> CpuOp {
        if self.dice.chance(self.plan.commits) {
            CpuOp::Commit(id)
        } else {
            CpuOp::Discard(id)
        }
    }

    /// An identifier that is open no more, or never was.
    fn closed(&mut self) -> SpecId {
        match self.dice.roll(3) {
            0 => SpecId::NONE,
            1 => SpecId::of(1 << 57, 1),
            _ => self.decided,
        }
    }

    /// Something said to a speculation of the board: to the one that was offered to last, as a rule. A trace, where the board has
    /// none.
    fn speculate(&mut self, board: &SharedState) -> CpuOp {
        if self.dice.chance(self.plan.stale) {
            let id = self.closed();
            return CpuOp::Speculate(id, self.record());
        }
        let place = self.place();
        if self.speculates_to == SpecId::NONE || self.dice.chance(30) {
            self.speculates_to = board.look(place).unwrap_or(SpecId::NONE);
        }
        let (id, rec) = (self.speculates_to, self.record());
        if id == SpecId::NONE {
            CpuOp::Trace(rec)
        } else {
            CpuOp::Speculate(id, rec)
        }
    }

    /// A decision of a speculation of the board. Most take it off the board before, so that only one of them decides.
    fn decide(&mut self, board: &SharedState) -> CpuOp {
        if self.dice.chance(self.plan.stale) {
            let id = self.closed();
            return self.decision(id);
        }
        let place = self.place();
        let Some(id) = board.look(place) else {
            return CpuOp::Speculation;
        };
        if self.dice.chance(30) || board.withdraw(place, id) {
            self.decision(id)
        } else {
            CpuOp::Trace(self.record())
        }
    }

    /// The next call.
    pub fn next(&mut self, board: &SharedState) -> CpuOp {
        if let Some(op) = self.owed.take() {
            return op;
        }
        let mix = self.plan.mix;
        let openings = mix.services.saturating_add(mix.openings);
        let decisions = openings.saturating_add(mix.decisions);
        let speculates = decisions.saturating_add(mix.speculates);
        let pick = self.dice.roll(100);
        if pick < mix.services {
            CpuOp::Service
        } else if pick < openings {
            CpuOp::Speculation
        } else if pick < decisions {
            self.decide(board)
        } else if pick < speculates {
            self.speculate(board)
        } else {
            CpuOp::Trace(self.record())
        }
    }

    /// The next call is a service, and the others get time before it, as a rule.
    fn wait(&mut self) {
        if self.dice.chance(80) {
            self.owed = Some(CpuOp::Service);
            self.waits = true;
        }
    }

    /// What a call of speculation answered: what was given out goes to the board, and what it drives off is decided, as a rule.
    /// Where there was none, another may be decided.
    fn opened(&mut self, board: &SharedState, opening: Opening) {
        let place = self.place();
        let other = match opening {
            Opening::Id(id) => board.put(place, id),
            Opening::Unavailable => board.look(place),
            Opening::Busy => {
                self.wait();
                None
            }
            Opening::Stopped | Opening::Worn => None,
        };
        if let Some(id) = other {
            if self.dice.chance(95) {
                self.owed = Some(self.decision(id));
            }
        }
    }

    /// A speculation is decided: it leaves the board, and isn't offered to any more.
    fn leave(&mut self, board: &SharedState, id: SpecId) {
        board.clear(id);
        if self.speculates_to == id {
            self.speculates_to = SpecId::NONE;
        }
    }

    /// What a call answered.
    pub fn heard(&mut self, board: &SharedState, called: &LoggedCall) {
        self.log.note(called.op, called.answer);
        board.count();
        let id = identifier_in(called.op).unwrap_or(SpecId::NONE);
        match called.answer {
            Answer::Opening(opening) => self.opened(board, opening),
            Answer::Traced(Traced::Dropped) => self.wait(),
            Answer::Spoken(Spoken::Void) => self.leave(board, id),
            Answer::Decided(decided) => {
                if decided != Decided::Void {
                    self.decided = id;
                }
                self.leave(board, id);
            }
            _ => {}
        }
    }

    /// Whether to make way for others after this call.
    pub fn makes_way(&mut self) -> bool {
        self.dice.roll(1000) < self.plan.yields
    }

    /// How many turns to do nothing after this call, while others go on: many where it has to wait for them.
    pub fn pause(&mut self) -> u32 {
        if self.waits {
            self.waits = false;
            return self.dice.roll(2000);
        }
        if self.dice.chance(20) {
            return self.dice.roll(100);
        }
        0
    }

    /// The log, at the end.
    pub fn into_log(self) -> Log {
        self.log
    }
}
