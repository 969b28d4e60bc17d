use crate::close::close;
use crate::consumer_homing::ConsumerHoming;
use crate::consumer_place::ConsumerPlace;
use crate::cpu_place::CpuPlace;
use crate::ended::EndedSession;
use crate::gather::{all_home, hand_out, is_in};
use crate::out_consumer::OutConsumer;
use crate::out_cpu::OutCpu;
use crate::places::places;
use crate::tending::tend_all;
use dspec_cpu::{Cpu, Shared};
use dspec_deeds::{Config, StartFault};
use dspec_record::Enablings;
use dspec_session_core::{Consumer, Session};
use std::alloc::{AllocError, Global};
use std::marker::Model;
use std::sync::Arc;

/// A session between its start and its end: the places where its parts wait to be handed out, and where they come home. What is at a
/// place shares nothing, so that once all are home nobody but the session has what they share.
#[derive(Drop)]
pub struct UnderWay {
    common: Arc<Shared, Global>,
    cpus: u32,
    places: Vec<CpuPlace>,
    place: ConsumerPlace,
    /// Empty, with room for all CPUs.
    room: Vec<Cpu<Enablings>>,
    /// Empty, with room for a count of each CPU.
    counts: Vec<u64>,
}

impl Model for UnderWay {
    ghost use Rattle.std.specs.Arc.{arc_value};
    ghost use Rattle.dspec_c.specs.Whole.{Going, HasRooms, IsWhole, firsts};

    ghost Value = { Going };

    ghost view = { λ s. record { shared = arc_value s.common; cpus = s.cpus; places = s.places.items; consumer = s.place } };

    ghost invariant = { λ s. IsWhole (arc_value s.common) s.cpus (firsts s.places.items) s.place.first × HasRooms s.cpus s.room s.counts };
}

impl UnderWay {
    ghost use Rattle.std.specs.Arc.{arc_value};
    ghost use Rattle.std.specs.Prelude.{◌≡◌, ◌≢◌, ℕ, MatchBool, nat_lt, IfErr, IfOk, IfSome, IfNone, OnErr, Some, None, true, false, length, slice_get};
    ghost use Rattle.dspec_deeds.specs.declared.config.StartFault.TheVariants as start;
    ghost use Rattle.dspec_deeds.specs.Ranges.{start_fault};
    ghost use Rattle.dspec_record.specs.EnablingRows.{EnabledRows};
    ghost use Rattle.dspec_table.specs.Seats.{last_seat, set_up};
    ghost use Rattle.dspec_cpu.specs.{Lists.words_of, declared.cpu.Cpu.Cpu};
    ghost use Rattle.dspec_session_core.specs.{Consumers.view_of, Sessions.Has, Sessions.IsFresh, Sessions.IsSession};
    ghost use Rattle.dspec_c.specs.Tending.{IsTendedWhole};
    ghost use Rattle.dspec_c.specs.Whole.{AllCalled, EndedBy, GoesOut, HasAll, IsAway, IsHome, IsJustStarted, IsStarted, LookedLater, LooksAtOne, TheyGoOut, inside_at};

    fn of(
        alloc: Global,
        common: Arc<Shared, Global>,
        cpus: Vec<Cpu<Enablings>>,
        consumer: Consumer,
        count: u32,
    ) -> Result<UnderWay, AllocError>
        requires called { AllCalled (arc_value common) cpus.items }
        requires started { IsStarted (arc_value common) count cpus.items consumer }
        ensures { IfOk result (HasAll (arc_value common) cpus.items consumer count) }
    {
        let room = Vec::with_capacity(alloc, cpus.len())?;
        let counts = Vec::with_capacity(alloc, cpus.len())?;
        let places = places(alloc, &common, cpus)?;
        let shared = Arc::try_clone(&common)?;
        let place = ConsumerPlace::make(alloc, ConsumerHoming::of(shared, consumer))?;
        Ok(UnderWay {
            common,
            cpus: count,
            places,
            place,
            room,
            counts,
        })
    }

    // A session of the library. It is a call of its own, so that the stack that this takes is free again when its parts are laid out.
    #[inline(never)]
    fn begin(
        alloc: Global,
        config: &Config,
        schema: &Enablings,
    ) -> Result<Session<Enablings>, StartFault>
        ensures started { IfOk result (λ _. start_fault config.now ≡ None) }
        ensures refused { IfErr result (λ fault. fault ≢ start.Memory → start_fault config.now ≡ Some fault) }
        ensures memory { IfErr result (λ fault. fault ≡ start.Memory → start_fault config.now ≡ None) }
        ensures config { IfOk result (λ s. set_up (words_of s.shared) ≡ config.now) }
        ensures session { IfOk result (λ s. IsSession schema.now s) }
        ensures fresh { IfOk result (λ s. (c : ℕ) (cpu : Cpu EnabledRows) → slice_get s.cpus.items c ≡ Some cpu → IsFresh Has cpu) }
        ensures consumer { IfOk result (λ s. view_of s.consumer ≡ last_seat config.now) }
    {
        Session::start(alloc, config, *schema)
    }

    // Over a session that has started, with so many CPUs; what lets it go, where memory is refused, takes stack only here.
    #[inline(never)]
    fn over(alloc: Global, started: Session<Enablings>, count: u32) -> Result<UnderWay, AllocError>
        requires session { (schema : EnabledRows) × IsSession schema started }
        requires count { count ≡ (set_up (words_of started.shared)).cpus }
        ensures { IfOk result (HasAll started.shared started.cpus.items started.consumer count) }
    {
        let Session {
            shared,
            cpus,
            consumer,
        } = started;
        let Ok(common) = Arc::new(alloc, shared) else {
            return Err(AllocError);
        };
        UnderWay::of(alloc, common, cpus, consumer, count)
    }

    /// A session that has started. All its CPUs and its consumer wait to be handed out.
    pub fn start(alloc: Global, config: &Config, schema: &Enablings) -> Result<UnderWay, StartFault>
        ensures started { IfOk result (λ _. start_fault config.now ≡ None) }
        ensures whole { IfOk result (λ w. IsJustStarted config.now schema.now w) }
        ensures refused { IfErr result (λ fault. fault ≢ start.Memory → start_fault config.now ≡ Some fault) }
        ensures memory { IfErr result (λ fault. fault ≡ start.Memory → start_fault config.now ≡ None) }
    {
        let session = UnderWay::begin(alloc, config, schema)?;
        let Ok(whole) = UnderWay::over(alloc, session, config.cpus) else {
            return Err(StartFault::Memory);
        };
        Ok(whole)
    }

    /// How many CPUs it has.
    pub fn count(&self) -> u32
        ensures { result ≡ self.now.cpus }
    {
        self.cpus
    }

    /// Whether there is such a CPU.
    pub fn has_cpu(&self, cpu: u32) -> bool
        ensures { result ≡ nat_lt cpu self.now.cpus }
    {
        cpu < self.cpus
    }

    /// Whether such a CPU is at its place.
    pub fn has_cpu_in(&mut self, cpu: u32) -> bool
        requires { nat_lt cpu self.old.cpus ≡ true }
        ensures looked { LooksAtOne cpu self.old self.new }
        ensures inside { result ≡ inside_at cpu self.new.places }
    {
        is_in(&mut self.places, cpu as usize)
    }

    /// What the parts of the session share.
    pub fn share(&self) -> Result<Arc<Shared, Global>, AllocError>
        ensures { IfOk result (λ shared. arc_value shared ≡ self.now.shared) }
    {
        Arc::try_clone(&self.common)
    }

    /// The CPU, with what it shares, which is at its place. It stays there, as it was, where memory is refused.
    pub fn cpu(
        &mut self,
        alloc: Global,
        shared: Arc<Shared, Global>,
        cpu: u32,
    ) -> Result<OutCpu, AllocError>
        requires shares { arc_value shared ≡ self.old.shared }
        requires inside { inside_at cpu self.old.places ≡ true }
        ensures goes { IfOk result (λ side. GoesOut cpu self.old side self.new) }
        ensures stays { OnErr result (self.new ≡ self.old) }
    {
        hand_out(alloc, &mut self.places, cpu as usize, shared)
    }

    /// Whether the consumer waits to be handed out.
    pub fn has_consumer_in(&self) -> bool
        ensures { result ≡ self.now.consumer.waits }
    {
        self.place.waits()
    }

    /// The consumer, with what it shares, where it wasn't handed out yet.
    pub fn consumer(&mut self, shared: Arc<Shared, Global>) -> Option<OutConsumer>
        requires { arc_value shared ≡ self.old.shared }
        ensures go { IfSome result (λ side. TheyGoOut self.old side self.new) }
        ensures none { IfNone result ((self.old.consumer.waits ≡ false) × (self.new ≡ self.old)) }
    {
        self.place.hand_out(shared)
    }

    /// Makes a service of each CPU that is home or was never handed out; how many speculations they settled in all.
    pub fn tend(&mut self) -> u64
        ensures { IsTendedWhole result self.old self.new }
    {
        tend_all(&mut self.places, self.cpus, &self.common)
    }

    /// Whether the consumer and all CPUs are home. Those that were never handed out are.
    pub fn is_home(&mut self) -> bool
        ensures looked { LookedLater self.old self.new }
        ensures home { MatchBool result (IsHome self.new) (IsAway self.new) }
    {
        let theirs = self.place.is_in();
        let ours = all_home(&mut self.places);
        theirs && ours
    }

    /// Ends it. It comes back as it was where what it shares is still somebody else's, of whom none is known once all are home.
    pub fn finish(self) -> Result<EndedSession, UnderWay>
        requires { IsHome self }
        ensures all { IfOk result (λ ended. length ended.closed ≡ self.cpus) }
        ensures ended { IfOk result (λ ended. EndedBy self ended.closed ended.refused.items) }
        ensures back { IfErr result (λ whole. whole ≡ self) }
    {
        let UnderWay {
            common,
            cpus,
            places,
            place,
            room,
            counts,
        } = self;
        match Arc::try_unwrap(common) {
            Ok(shared) => {
                let (closed, refused) = close(shared, places, room, counts, place.into_home());
                Ok(EndedSession {
                    closed,
                    cpus,
                    refused,
                })
            }
            Err(common) => Err(UnderWay {
                common,
                cpus,
                places,
                place,
                room,
                counts,
            }),
        }
    }
}
