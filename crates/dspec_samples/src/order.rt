use crate::answers::{is_kept, is_refused, record_in};
use crate::blocks::{Block, Blocks};
use crate::flaws::{Checked, Flaw, FlawKind};
use crate::identifiers::Identifiers;
use crate::logging::LoggedCall;
use crate::records::number_of;
use crate::stories::{BatchContents, CpuBatches};
use dspec_deeds::{Answer, CpuOp, Decided};
use dspec_record::Rec;
use dspec_word::SpecId;
use std::alloc::{AllocError, Global};

/// A walk over what came of a CPU, record by record, beside its log. A record of a trace stands there as the call is made, a block
/// as its own CPU's commit is, or else at a service after the last call that spoke to it: at the first one that the order leaves.
/// Several blocks of one service come slots upwards. The close is a service after the last call.
#[derive(Drop)]
pub struct OrderCheck<'a> {
    cpu: u32,
    calls: &'a [LoggedCall],
    /// For each call the first service that isn't before it; the number of calls where there is none.
    services: Vec<usize>,
    /// The services that sealed a batch.
    seals: Vec<usize>,
    /// Which calls' records were found.
    seen: Vec<bool>,
    /// The first call that what comes next can be of.
    next: usize,
    /// The service of the latest block, and its slot, where the walk stands after that.
    serving: Option<(usize, u32)>,
    /// The block that the walk is in, and the place of its next record.
    within: Option<(SpecId, usize)>,
    /// How many records were found.
    pub found: u64,
}

/// For each call the first service that isn't before it.
fn services_of(alloc: Global, calls: &[LoggedCall]) -> Result<Vec<usize>, AllocError> {
    let mut services = Vec::new(alloc);
    let mut first = calls.len();
    for (number, called) in calls.iter().enumerate().rev() {
        if called.op == CpuOp::Service {
            first = number;
        }
        services.push(first)?;
    }
    services.as_mut_slice().reverse();
    Ok(services)
}

impl<'a> OrderCheck<'a> {
    /// Before the first record.
    pub fn new(
        alloc: Global,
        cpu: u32,
        calls: &'a [LoggedCall],
    ) -> Result<OrderCheck<'a>, AllocError> {
        let mut seals = Vec::new(alloc);
        let mut seen = Vec::new(alloc);
        for (number, called) in calls.iter().enumerate() {
            seen.push(false)?;
            if let Answer::Served(served) = called.answer {
                if served.sealed {
                    seals.push(number)?;
                }
            }
        }
        Ok(OrderCheck {
            cpu,
            calls,
            services: services_of(alloc, calls)?,
            seals,
            seen,
            next: 0,
            serving: None,
            within: None,
            found: 0,
        })
    }

    fn flaw(&self, kind: FlawKind) -> Flaw {
        Flaw::new(kind, self.cpu)
    }

    /// Which call's record it is. It refuses one that no call offered, whose call didn't keep it, or that was found before.
    fn find(&mut self, rec: &Rec) -> Checked<(usize, CpuOp)> {
        let Some(number) = number_of(rec) else {
            return Err(self.flaw(FlawKind::Unknown).into());
        };
        let Some(called) = self.calls.get(number) else {
            return Err(self.flaw(FlawKind::Unknown).into());
        };
        if record_in(called.op) != Some(*rec) {
            return Err(self.flaw(FlawKind::Unknown).at(number).into());
        }
        if !is_kept(called.answer) {
            return Err(self.flaw(FlawKind::NotKept).at(number).into());
        }
        let Some(seen) = self.seen.get_mut(number) else {
            return Err(self.flaw(FlawKind::Unknown).into());
        };
        if *seen {
            return Err(self.flaw(FlawKind::Twice).at(number).into());
        }
        *seen = true;
        self.found = self.found.saturating_add(1);
        Ok((number, called.op))
    }

    /// The service at which another CPU's decision was settled here, of a block whose last record is of this call.
    fn service_for(&self, id: SpecId, last: usize) -> usize {
        if let Some((service, slot)) = self.serving {
            if slot < id.slot() && last < service {
                return service;
            }
        }
        let least = self.next.max(last.saturating_add(1));
        self.services
            .get(least)
            .copied()
            .unwrap_or(self.calls.len())
    }

    /// A block begins, which has to be of a committed speculation, and whose call or service has to be before this one.
    fn begin(
        &mut self,
        id: SpecId,
        block: &Block,
        until: usize,
        identifiers: &Identifiers,
    ) -> Checked<()> {
        if identifiers.decision(id) != Some(true) {
            return Err(self.flaw(FlawKind::NotCommitted).of(id).into());
        }
        let place = match block.decided {
            Some((number, Answer::Decided(Decided::Copied(_)))) => {
                self.serving = None;
                number
            }
            Some((number, _)) => {
                let flaw = self.flaw(FlawKind::LostButThere).at(number);
                return Err(flaw.of(id).into());
            }
            None => {
                let last = block.kept.last().copied().unwrap_or(0);
                let service = self.service_for(id, last);
                self.next = self.next.min(service);
                self.serving = Some((service, id.slot()));
                service
            }
        };
        self.go_to(place, until, id)
    }

    /// The walk goes after a call.
    fn go_to(&mut self, place: usize, until: usize, id: SpecId) -> Checked<()> {
        if place < self.next || place >= until {
            return Err(self.flaw(FlawKind::Order).at(place).of(id).into());
        }
        self.next = place.saturating_add(1);
        Ok(())
    }

    /// A record of a block.
    fn follow(
        &mut self,
        number: usize,
        id: SpecId,
        until: usize,
        blocks: &mut Blocks,
        identifiers: &Identifiers,
    ) -> Checked<()> {
        let Some(block) = blocks.all.get_mut(&id.raw()) else {
            return Err(self.flaw(FlawKind::Unknown).at(number).of(id).into());
        };
        let within = self.within;
        let place = match within {
            Some((same, place)) if same == id => place,
            Some(_) => return Err(self.flaw(FlawKind::BlockTorn).at(number).of(id).into()),
            None => {
                self.begin(id, block, until, identifiers)?;
                block.seen = true;
                0
            }
        };
        if block.kept.get(place) != Some(&number) {
            return Err(self.flaw(FlawKind::BlockTorn).at(number).of(id).into());
        }
        let next = place.saturating_add(1);
        self.within = if next < block.kept.len() {
            Some((id, next))
        } else {
            None
        };
        Ok(())
    }

    /// A record more, of a batch that was sealed at this call.
    fn step(
        &mut self,
        rec: &Rec,
        until: usize,
        blocks: &mut Blocks,
        identifiers: &Identifiers,
    ) -> Checked<()> {
        let (number, op) = self.find(rec)?;
        match op {
            CpuOp::Speculate(id, _) => self.follow(number, id, until, blocks, identifiers),
            _ => {
                if self.within.is_some() {
                    return Err(self.flaw(FlawKind::BlockTorn).at(number).into());
                }
                self.serving = None;
                self.go_to(number, until, SpecId::NONE)
            }
        }
    }

    /// A batch, whose first call is this one and whose last is before that one.
    fn walk_part(
        &mut self,
        part: &BatchContents,
        until: usize,
        blocks: &mut Blocks,
        identifiers: &Identifiers,
    ) -> Checked<()> {
        if part.cpu != self.cpu {
            return Err(self.flaw(FlawKind::OtherCpu).into());
        }
        if part.fault.is_some() {
            return Err(self.flaw(FlawKind::Unreadable).into());
        }
        for rec in &part.records {
            self.step(rec, until, blocks, identifiers)?;
        }
        if let Some((id, _)) = self.within {
            return Err(self.flaw(FlawKind::BlockTorn).of(id).into());
        }
        Ok(())
    }

    /// How many of these calls were told that the principal buffer refused something.
    fn drops_within(&self, from: usize, until: usize) -> u64 {
        let within = until.min(self.calls.len()).saturating_sub(from);
        self.calls
            .iter()
            .skip(from)
            .take(within)
            .filter(|called| is_refused(called.answer))
            .count() as u64
    }

    /// All that came of the CPU. It refuses what can't be there, or not there, and batches that aren't those sealed.
    pub fn walk(
        &mut self,
        stream: &CpuBatches,
        blocks: &mut Blocks,
        identifiers: &Identifiers,
    ) -> Checked<()> {
        let (came, sealed) = (stream.parts.len(), self.seals.len());
        if came != sealed.saturating_add(1) {
            let flaw = self.flaw(FlawKind::Batches);
            return Err(flaw.with(came as u64, sealed as u64 + 1).into());
        }
        let mut from = 0;
        for (number, part) in stream.parts.iter().enumerate() {
            let end = self.calls.len().saturating_add(1);
            let until = self.seals.get(number).copied().unwrap_or(end);
            self.next = self.next.max(from);
            self.walk_part(part, until, blocks, identifiers)?;
            let due = self.drops_within(from, until);
            if part.drops < due {
                let flaw = self.flaw(FlawKind::BatchDrops).at(from);
                return Err(flaw.with(part.drops, due).into());
            }
            from = until;
        }
        self.miss(blocks)
    }

    /// Refuses a record that a trace kept, or a block that its own commit copied, which wasn't found.
    fn miss(&self, blocks: &Blocks) -> Checked<()> {
        for (number, (called, seen)) in self.calls.iter().zip(self.seen.iter()).enumerate() {
            if matches!(called.op, CpuOp::Trace(_)) && is_kept(called.answer) && !*seen {
                return Err(self.flaw(FlawKind::TraceMissing).at(number).into());
            }
        }
        for (raw, block) in blocks.all.iter() {
            if let Some((number, Answer::Decided(Decided::Copied(size)))) = block.decided {
                if size > 0 && !block.seen {
                    let flaw = self.flaw(FlawKind::BlockMissing).at(number);
                    return Err(flaw.of(SpecId::from_raw(*raw)).into());
                }
            }
        }
        Ok(())
    }
}
