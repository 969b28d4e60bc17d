use crate::answers::{decision_in, identifier_in, is_granted, is_void};
use crate::flaws::{Checked, Flaw, FlawKind};
use crate::logging::LoggedCall;
use crate::stories::Story;
use dspec_deeds::{Answer, Config, Opening};
use dspec_word::SpecId;
use std::alloc::{AllocError, Global};
use std::collections::BTreeMap;

/// What all logs tell of an identifier.
#[derive(Clone, Copy, Debug, PartialEq, Eq)]
struct IdentifierHistory {
    given: bool,
    /// The CPUs whose records it was granted, as bits.
    callers: u64,
    /// Whether the call that decided it is a commit.
    decision: Option<bool>,
}

/// The identifiers of a session, by their numbers.
#[derive(Drop)]
pub struct Identifiers {
    fates: BTreeMap<u64, IdentifierHistory>,
}

impl Identifiers {
    /// What the logs tell. It refuses an identifier that was given out twice, or decided twice.
    pub fn read(alloc: Global, story: &Story) -> Checked<Identifiers> {
        let mut all = Identifiers {
            fates: BTreeMap::new(alloc),
        };
        for (cpu, log) in story.logs.iter().enumerate() {
            let cpu = (cpu % 64) as u32;
            for (number, called) in log.calls.iter().enumerate() {
                all.note(cpu, number, called)?;
            }
        }
        Ok(all)
    }

    /// What is known so far of an identifier, or that nothing is.
    fn fate(&self, id: SpecId) -> IdentifierHistory {
        match self.fates.get(&id.raw()) {
            Some(fate) => *fate,
            None => IdentifierHistory {
                given: false,
                callers: 0,
                decision: None,
            },
        }
    }

    fn keep(&mut self, id: SpecId, fate: IdentifierHistory) -> Result<(), AllocError> {
        self.fates.insert(id.raw(), fate)?;
        Ok(())
    }

    /// One call more.
    fn note(&mut self, cpu: u32, number: usize, called: &LoggedCall) -> Checked<()> {
        if let Answer::Opening(Opening::Id(id)) = called.answer {
            let mut fate = self.fate(id);
            if fate.given {
                return Err(
                    Flaw::new(FlawKind::GivenTwice, cpu)
                        .at(number)
                        .of(id)
                        .into(),
                );
            }
            fate.given = true;
            self.keep(id, fate)?;
        }
        let Some(id) = identifier_in(called.op) else {
            return Ok(());
        };
        let mut fate = self.fate(id);
        if is_granted(called.answer) {
            fate.callers |= 1 << (cpu % 64);
        }
        if let Some((commits, _)) = decision_in(called.answer) {
            if fate.decision.is_some() {
                return Err(
                    Flaw::new(FlawKind::DecidedTwice, cpu)
                        .at(number)
                        .of(id)
                        .into(),
                );
            }
            fate.decision = Some(commits);
        }
        self.keep(id, fate)?;
        Ok(())
    }

    /// Refuses a call that is answered as if its identifier were open though it was never given out, or decided though nobody
    /// decided it, and an identifier that isn't one of the session's.
    pub fn check(&self, story: &Story) -> Checked<()> {
        for (cpu, log) in story.logs.iter().enumerate() {
            for (number, called) in log.calls.iter().enumerate() {
                if let Err((kind, id)) = self.check_call(called, &story.config) {
                    let flaw = Flaw::new(kind, (cpu % 64) as u32);
                    return Err(flaw.at(number).of(id).into());
                }
            }
        }
        Ok(())
    }

    /// The same of one call.
    fn check_call(&self, called: &LoggedCall, config: &Config) -> Result<(), (FlawKind, SpecId)> {
        if let Answer::Opening(Opening::Id(id)) = called.answer {
            if id.slot() == 0 || id.slot() > config.nspec || id.issue() >= config.max_issues {
                return Err((FlawKind::NoSuchSlot, id));
            }
        }
        let Some(id) = identifier_in(called.op) else {
            return Ok(());
        };
        let fate = self.fate(id);
        let open = is_granted(called.answer) || decision_in(called.answer).is_some();
        if open && !fate.given {
            return Err((FlawKind::NeverGiven, id));
        }
        if is_void(called.answer) && fate.given && fate.decision.is_none() {
            return Err((FlawKind::VoidUndecided, id));
        }
        Ok(())
    }

    /// Whether the call that decided the identifier is a commit; None where nobody decided it.
    pub fn decision(&self, id: SpecId) -> Option<bool> {
        self.fate(id).decision
    }

    /// Whether the identifier was given out.
    pub fn is_given(&self, id: SpecId) -> bool {
        self.fate(id).given
    }

    /// How many were decided.
    pub fn decided(&self) -> u64 {
        self.fates
            .values()
            .filter(|fate| fate.decision.is_some())
            .count() as u64
    }

    /// How many have granted records of several CPUs.
    pub fn shared(&self) -> u64 {
        self.fates
            .values()
            .filter(|fate| fate.callers.count_ones() > 1)
            .count() as u64
    }
}
