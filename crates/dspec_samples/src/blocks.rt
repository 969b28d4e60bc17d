use crate::answers::{decision_in, identifier_in};
use crate::flaws::{Checked, Flaw, FlawKind};
use crate::logging::LoggedCall;
use dspec_deeds::{Answer, Spoken};
use std::alloc::{AllocError, Global};
use std::collections::BTreeMap;

/// What a CPU kept of a speculation.
#[derive(Debug, Drop)]
pub struct Block {
    /// The calls whose records it has, in order.
    pub kept: Vec<usize>,
    /// The call of this CPU that decided it, where one did, and its answer.
    pub decided: Option<(usize, Answer)>,
    /// Whether it was found among what came.
    pub seen: bool,
}

/// The blocks of a CPU, by the numbers of their identifiers.
#[derive(Drop)]
pub struct Blocks {
    pub all: BTreeMap<u64, Block>,
}

impl Blocks {
    /// What a log tells. It refuses a decision that tells of a block of another size.
    pub fn read(alloc: Global, cpu: u32, calls: &[LoggedCall]) -> Checked<Blocks> {
        let mut blocks = Blocks {
            all: BTreeMap::new(alloc),
        };
        for (number, called) in calls.iter().enumerate() {
            blocks.note(alloc, cpu, number, called)?;
        }
        Ok(blocks)
    }

    /// One call more.
    fn note(&mut self, alloc: Global, cpu: u32, number: usize, called: &LoggedCall) -> Checked<()> {
        let Some(id) = identifier_in(called.op) else {
            return Ok(());
        };
        let raw = id.raw();
        if called.answer == Answer::Spoken(Spoken::Kept) {
            self.keep(alloc, raw, number)?;
        }
        if let Some((_, size)) = decision_in(called.answer) {
            let due = self.decide(alloc, raw, number, called.answer)?;
            if u64::from(size) != due {
                let flaw = Flaw::new(FlawKind::BlockCount, cpu).at(number).of(id);
                return Err(flaw.with(u64::from(size), due).into());
            }
        }
        Ok(())
    }

    /// The record of a call is kept.
    fn keep(&mut self, alloc: Global, raw: u64, number: usize) -> Result<(), AllocError> {
        self.block(alloc, raw)?.kept.push(number)?;
        Ok(())
    }

    /// A call decides here; how many records the block has.
    fn decide(
        &mut self,
        alloc: Global,
        raw: u64,
        number: usize,
        answer: Answer,
    ) -> Result<u64, AllocError> {
        let block = self.block(alloc, raw)?;
        block.decided = Some((number, answer));
        Ok(block.kept.len() as u64)
    }

    /// The block of an identifier, an empty one where there was none.
    fn block(&mut self, alloc: Global, raw: u64) -> Result<&mut Block, AllocError> {
        let none = Block {
            kept: Vec::new(alloc),
            decided: None,
            seen: false,
        };
        Ok(self.all.entry(raw)?.or_insert(none))
    }
}
