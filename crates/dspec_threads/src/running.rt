ghost use Rattle.std.specs.Prelude.{◌≡◌, ◌≢◌, ◌≤◌, ◌⊎◌, IfErr, IfOk, IfSome, MatchBool, None, Some, All, length, map, true, vec_capacity, []};
ghost use Rattle.dspec_deeds.specs.declared.config.StartFault.TheVariants as start;
ghost use Rattle.dspec_deeds.specs.Ranges.{start_fault};
ghost use Rattle.dspec_ring.specs.Known.{IsUnusedConsumer};
ghost use Rattle.dspec_table.specs.Seats.{last_seat, set_up};
ghost use Rattle.dspec_cpu.specs.Lists.{words_of};
ghost use Rattle.dspec_session_core.specs.{Consumers.view_of, Leaving.AllSteady, Sessions.IsSession};
ghost use Rattle.dspec.specs.{Serving.ThenServed, Traced.IsKeptWith, Traced.IsOneListWith, Traced.IsTracedWith};
ghost use Rattle.dspec_threads.specs.Places.{AllIn, IsOneOut, NothingOrDone, all_whereabouts, who_is_in, waits_inside};
ghost use Rattle.dspec_threads.specs.Runs.{AreNew, BeginsRun, ByThoseHome, EndsHome, HandsLane, IsLaneOf, LooksLater, RoundMade, RunningSession, TendsHome};

use crate::common::Common;
use crate::duty::{Anything, Duty};
use crate::owned_lane::{FreeLane, OwnedLane};
use crate::place::LanePlace;
use crate::places::{cpus_of, look_at_all, places_of, send_out_at, tend_all};
use dspec::{Closed, Config, Consumer, Session, Sink, StartFault, pass_rests, visit_all};
use dspec_cpu::Cpu;
use dspec_record::{Enablings, Schema};
use std::alloc::{AllocError, Global};
use std::marker::Model;
use std::snapshot::Snapshot;

/// A session that runs, whose CPUs go out as lanes and come back, with its consumer and a sink. It can move to another thread.
#[derive(Drop)]
pub struct Running<D: Duty, K: Sink<Enablings>> {
    alloc: Global,
    common: Common,
    schema: Enablings,
    cpus: u32,
    places: Vec<LanePlace<D>>,
    /// Empty, with room for all CPUs.
    room: Vec<Cpu<Enablings>>,
    consumer: Consumer,
    began: Snapshot<K>,
    sink: K,
}

impl<D: Duty, K: Sink<Enablings>> Model for Running<D, K> {
    ghost use Rattle.std.specs.{Arc.arc_value, Prelude.◌≡◌, Prelude.◌≤◌, Prelude.[], Prelude.length, Prelude.vec_capacity};
    ghost use Rattle.dspec_table.specs.Seats.{set_up};
    ghost use Rattle.dspec_cpu.specs.Lists.{words_of};
    ghost use Rattle.dspec_threads.specs.{Places.all_whereabouts, Places.who_is_in, Runs.IsRun, Runs.RunningSession};

    ghost Value = { RunningSession K };

    ghost view = { λ r. record { schema = r.schema; config = set_up (words_of (arc_value r.common.shared)); home = who_is_in (all_whereabouts r.places.items); held = r.common.held; consumer = r.consumer; began = r.began.value; sink = r.sink } };

    ghost invariant = { λ r. IsRun (K.gets r.schema) D.done (arc_value r.common.shared) r.schema r.cpus (all_whereabouts r.places.items) r.consumer r.began.value r.sink
        × ((r.room.items ≡ []) × (length r.places.items ≤ vec_capacity r.room)) };
}

// Tells what holds of each CPU, as of every one between two of its calls.
fn tell_all<S: Schema>(cpus: &Vec<Cpu<S>>)
    ensures { AllSteady S.shape_of S.accepted S.text cpus.now.items }
{
    for one in cpus {
        one.invariant();
    }
}

impl<D: Duty, K: Sink<Enablings>> Running<D, K> {
    // Over a session that has started, with so many CPUs.
    fn over(
        alloc: Global,
        session: Session<Enablings>,
        schema: Enablings,
        count: u32,
        sink: K,
    ) -> Result<Running<D, K>, AllocError>
        requires session { IsSession schema session × (count ≡ (set_up (words_of session.shared)).cpus) }
        requires consumer { (view_of session.consumer ≡ last_seat (set_up (words_of session.shared))) × All IsUnusedConsumer session.consumer.ends }
        requires fresh { AreNew count schema (who_is_in (map waits_inside session.cpus.items)) }
        ensures running { IfOk result (λ r. BeginsRun (set_up (words_of session.shared)) schema sink r) }
        ensures home { IfOk result (λ r. r.home ≡ who_is_in (map waits_inside session.cpus.items)) }
    {
        let Session {
            consumer,
            cpus,
            shared,
        } = session;
        let common = Common::of(alloc, shared)?;
        let room = Vec::with_capacity(alloc, cpus.len())?;
        let places = places_of(alloc, cpus)?;
        Ok(Running {
            alloc,
            common,
            schema,
            cpus: count,
            places,
            room,
            consumer,
            began: Snapshot::of(&sink),
            sink,
        })
    }

    /// Starts a session of this configuration. All its CPUs are at home: `lane` hands them out. It takes all memory that it will need,
    /// but for the lanes' ways home. It refuses the first field that is out of range, and else answers Memory where a growth was refused.
    pub fn start(
        alloc: Global,
        config: &Config,
        schema: Enablings,
        sink: K,
    ) -> Result<Running<D, K>, StartFault>
        ensures started { IfOk result (λ _. start_fault config.now ≡ None) }
        ensures refused { IfErr result (λ fault. fault ≢ start.Memory → start_fault config.now ≡ Some fault) }
        ensures memory { IfErr result (λ fault. fault ≡ start.Memory → start_fault config.now ≡ None) }
        ensures running { IfOk result (λ r. BeginsRun config.now schema sink r) }
        ensures lanes { IfOk result (λ r. AreNew config.now.cpus schema r.home) }
    {
        let session = Session::start(alloc, config, schema)?;
        let Ok(running) = Running::over(alloc, session, schema, config.cpus, sink) else {
            return Err(StartFault::Memory);
        };
        Ok(running)
    }

    /// Hands out a CPU as a lane, for the first time or again. None where that lane is out, or there is none of this number. An `Err` where
    /// there is no memory for its way home: it stays at home then.
    pub fn lane(&mut self, number: u32) -> Result<Option<OwnedLane<D>>, AllocError>
        ensures hands { HandsLane number result self.old self.new }
        ensures lane { IfOk result (λ o. IfSome o (λ lane. IsLaneOf D.done self.old.schema number lane)) }
    {
        let index = number as usize;
        if index >= self.places.len() {
            return Ok(None);
        }
        send_out_at(&mut self.places, index, self.alloc, &self.common)
    }

    /// The sink, between two rounds.
    pub fn sink(&self) -> &K
        ensures { result.now ≡ self.now.sink }
    {
        &self.sink
    }

    /// One round of the consumer's: each CPU is visited once, and what comes goes to the sink; then slots are cleaned. Somebody has to
    /// call it again and again while lanes are out.
    pub fn round(&mut self)
        ensures { RoundMade (K.gets self.old.schema) self.old self.new }
    {
        visit_all(
            &mut self.consumer,
            self.common.words(),
            &self.schema,
            self.cpus,
            &mut self.sink,
        );
    }

    /// Makes a service of each CPU that is at home, so that no slot waits for it. Whoever hands lanes out while paths are open calls it
    /// beside `round`.
    pub fn tend(&mut self)
        ensures { TendsHome self.old self.new }
    {
        look_at_all(&mut self.places);
        tend_all(&mut self.places, self.common.words());
    }

    /// Whether all lanes are back.
    pub fn is_home(&mut self) -> bool
        ensures same { LooksLater self.old self.new }
        ensures home { MatchBool result (AllIn self.new.home) (IsOneOut self.new.home) }
    {
        look_at_all(&mut self.places)
    }

    // Closes it, with all lanes back. It comes back where what its lanes shared is still somebody else's, of whom none is known.
    fn close(self) -> Result<(Closed, K), Running<D, K>>
        requires { AllIn self.home }
        ensures all { IfOk result (λ r. length r.0 ≡ self.config.cpus) }
        ensures keeps { IfOk result (λ r. IsKeptWith self.schema (K.gets self.schema) (ThenServed (NothingOrDone D.done)) self.config self.began r.0 r.1) }
        ensures traced { IfOk result (λ r. IsTracedWith self.schema (K.gets self.schema) (ThenServed (NothingOrDone D.done)) self.config self.began r.0 r.1) }
        ensures one_list { IfOk result (λ r. IsOneListWith self.schema (K.gets self.schema) (ThenServed (NothingOrDone D.done)) self.config self.began r.0 r.1) }
        ensures home { IfOk result (λ r. IsOneListWith self.schema (K.gets self.schema) (ByThoseHome D.done self.home) self.config self.began r.0 r.1) }
        ensures back { IfErr result (λ r. r ≡ record self { held = true }) }
    {
        let Running {
            alloc,
            common,
            schema,
            cpus,
            places,
            room,
            consumer,
            began,
            sink,
        } = self;
        let shared = match common.take() {
            Ok(shared) => shared,
            Err(common) => {
                return Err(Running {
                    alloc,
                    common,
                    schema,
                    cpus,
                    places,
                    room,
                    consumer,
                    began,
                    sink,
                });
            }
        };
        let cpus = cpus_of(places, room);
        tell_all(&cpus);
        let session = Session {
            shared,
            cpus,
            consumer,
        };
        let closed = session.finish();
        let mut sink = sink;
        pass_rests(&closed, &schema, closed.cpus(), &mut sink);
        Ok((closed, sink))
    }

    /// Ends the session, once all lanes are back: it is closed, and what nobody had taken goes to the sink, CPU by CPU. Each CPU is
    /// promised what `trace` promises, of the calls of the CPU that is at home then: those that have done what was promised of a lane that is given back, or
    /// none, and then services. While a
    /// lane is out the session comes back as it was.
    pub fn end(self) -> Result<(Closed, K), Running<D, K>>
        ensures all { IfOk result (λ r. length r.0 ≡ self.config.cpus) }
        ensures keeps { IfOk result (λ r. IsKeptWith self.schema (K.gets self.schema) (ThenServed (NothingOrDone D.done)) self.config self.began r.0 r.1) }
        ensures traced { IfOk result (λ r. IsTracedWith self.schema (K.gets self.schema) (ThenServed (NothingOrDone D.done)) self.config self.began r.0 r.1) }
        ensures one_list { IfOk result (λ r. IsOneListWith self.schema (K.gets self.schema) (ThenServed (NothingOrDone D.done)) self.config self.began r.0 r.1) }
        ensures home { IfOk result (λ r. EndsHome (K.gets self.schema) D.done self r.0 r.1) }
        ensures out { IfErr result (λ r. LooksLater (record self { held = r.held }) r) }
        ensures why { IfErr result (λ r. IsOneOut r.home ⊎ (r.held ≡ true)) }
    {
        let mut running = self;
        if !running.is_home() {
            return Err(running);
        }
        running.close()
    }
}

impl<K: Sink<Enablings>> Running<Anything, K> {
    /// As `lane`, and the lane may be let go.
    pub fn free_lane(&mut self, number: u32) -> Result<Option<FreeLane>, AllocError>
        ensures hands { HandsLane number result self.old self.new }
    {
        match self.lane(number)? {
            Some(lane) => Ok(Some(lane.freely())),
            None => Ok(None),
        }
    }
}
