ghost use Rattle.std.specs.Prelude.{◌≡◌, ◌<◌, None, Some, IsTrue};
ghost use Rattle.dspec_deeds.specs.{History.issue, Legal.IsSound, Ranges.start_fault};
ghost use Rattle.dspec_interleaving.specs.Coherent.{IsSlot, progress_of};
ghost use Rattle.dspec_core.specs.{Machines.IsShownMachine, Machines.history, Machines.state_of, Table.TellsAt, Table.TellsOwn, Table.TellsRoom, Table.aimed, Worlds.WorldInvariant};

use crate::machine::Machine;
use crate::machine::seen::Seen;
use dspec_buffer::TraceBuffer;
use dspec_deeds::CpuOp;
use dspec_interleaving::CallPlace;
use dspec_record::{Rec, Schema};
use dspec_word::SpecId;

impl<S: Schema, B: TraceBuffer<S>> Machine<S, B> {
    /// What the step of a CPU's call at that place sees: of the CPU's own only what such a step measures.
    pub fn see(&self, cpu: u32, place: &CallPlace) -> Seen
        requires kept { WorldInvariant B.has B.capacity S.shape_of S.accepted self.now }
        requires cpu { cpu < self.now.config.cpus }
        requires flight { (progress_of (state_of self.now).progresses cpu).flight ≡ Some place.now }
        ensures at { TellsAt self.now.config cpu (history self.now) (aimed (history self.now) place.now) result }
        ensures own { TellsOwn (S.shape_of self.now.schema) self.now.config cpu (history self.now) place.now result }
        ensures me { result.me ≡ progress_of (state_of self.now).progresses cpu }
    {
        let id = self.aim(place);
        let own = &self.cpus[cpu as usize];
        let slot = (id.slot() - 1) as usize;
        let word = self.words[slot];
        let acked = own.side.acks[slot];
        let seen = Seen {
            config: self.config,
            cpu,
            me: own.progress,
            worn: own.side.calls >= self.config.max_calls,
            stopped: self.halted,
            word,
            acked,
            mine: false,
            fits: false,
            copies: false,
            count: 0,
            missed_busy: own.side.missed_busy,
            seals: own.side.seals,
        };
        match *place {
            CallPlace::Begun(op) => match op {
                CpuOp::Trace(rec) => {
                    let fits = own.side.fits(&self.config, &self.schema, &rec);
                    Seen { fits, ..seen }
                }
                _ => seen,
            },
            CallPlace::SpeculateLoad(id, rec) => self.see_room(cpu, id, &rec, seen),
            CallPlace::SpeculateTry(id, rec, _) => self.see_room(cpu, id, &rec, seen),
            _ => {
                let mine = own.side.is_mine(id);
                let (copies, count) = own.side.measure::<S>(&self.config, id, mine);
                Seen {
                    mine,
                    copies,
                    count,
                    ..seen
                }
            }
        }
    }

    // What a step sees that may put a record after what the CPU holds of its slot's present speculation.
    fn see_room(&self, cpu: u32, id: SpecId, rec: &Rec, seen: Seen) -> Seen
        requires shown { IsShownMachine B.has B.capacity self.now }
        requires cpu { cpu < self.now.config.cpus }
        requires sound { IsSound self.now.config (history self.now) }
        requires slot { IsSlot self.now.config id.slot }
        requires accepted { IsTrue (S.accepted self.now.schema rec.now) }
        ensures room { id.issue ≡ issue id.slot (history self.now) → TellsRoom (S.shape_of self.now.schema) self.now.config cpu (history self.now) id rec.now result }
        ensures rest { result ≡ record seen { mine = result.mine; fits = result.fits } }
    {
        let side = &self.cpus[cpu as usize].side;
        let mine = side.is_mine(id);
        let fits = side.fits_slot(&self.config, &self.schema, id, rec, mine);
        Seen { mine, fits, ..seen }
    }

    // The speculation that a call at that place is at.
    fn aim(&self, place: &CallPlace) -> SpecId
        requires shown { IsShownMachine B.has B.capacity self.now }
        requires ranges { start_fault self.now.config ≡ None }
        requires slot { IsSlot self.now.config (aimed (history self.now) place.now).slot }
        ensures { result ≡ aimed (history self.now) place.now }
    {
        let slot = match *place {
            CallPlace::SpeculateLoad(id, _)
            | CallPlace::SpeculateTry(id, _, _)
            | CallPlace::CommitLoad(id)
            | CallPlace::CommitTry(id, _)
            | CallPlace::DiscardLoad(id)
            | CallPlace::DiscardTry(id, _) => return id,
            CallPlace::ScanLoad(slot)
            | CallPlace::ScanTry(slot, _)
            | CallPlace::ServiceLoad(slot, _)
            | CallPlace::ServiceStore(slot, _, _) => slot,
            CallPlace::Begun(_)
            | CallPlace::CommitRelease(_, _)
            | CallPlace::ServicePop
            | CallPlace::ServicePush => 1,
        };
        SpecId::of(self.words[(slot - 1) as usize].issue(), slot)
    }
}
