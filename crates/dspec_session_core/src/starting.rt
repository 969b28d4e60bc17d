ghost use Rattle.std.specs.Prelude.{◌≡◌, ◌≢◌, ℕ, [], length, All, IfOk, IfErr, Some, None, slice_get};
ghost use Rattle.dspec_deeds.specs.declared.config.StartFault.TheVariants as start;
ghost use Rattle.dspec_deeds.specs.Ranges.{start_fault};
ghost use Rattle.dspec_ring.specs.Known.{IsUnusedConsumer};
ghost use Rattle.dspec_table.specs.Seats.{FreshSeats, IsConsumerAt, known_there, last_seat, set_up};
ghost use Rattle.dspec_cpu.specs.{Lists.words_of, declared.cpu.Cpu.Cpu};
ghost use Rattle.dspec_session_core.specs.{Consumers.view_of, Sessions.IsSession, Sessions.IsFresh};

use crate::consumer::Consumer;
use crate::session::Session;
use dspec_cpu::{Cpu, Listed, Shared};
use dspec_deeds::{Config, StartFault};
use dspec_record::Schema;
use dspec_ring::pair;
use dspec_table::{ConsumerSeat, CpuSeat, Words};
use std::alloc::{AllocError, Global};

impl<S: Schema> Session<S> {
    // On words that were started, with all their seats.
    fn on_words(
        alloc: Global,
        config: &Config,
        schema: &S,
        words: Words,
        seats: Vec<CpuSeat>,
        seat: ConsumerSeat,
    ) -> Result<Session<S>, AllocError>
        requires fine { start_fault config.now ≡ None }
        requires config { set_up words ≡ config.now }
        requires seats { (length seats.items ≡ config.now.cpus) × FreshSeats words seats.items }
        requires consumer { IsConsumerAt words seat × (known_there seat ≡ last_seat config.now) }
        ensures words { IfOk result (λ s. words_of s.shared ≡ words) }
        ensures session { IfOk result (λ s. IsSession schema.now s) }
        ensures fresh { IfOk result (λ s. (c : ℕ) (cpu : Cpu S) → slice_get s.cpus.items c ≡ Some cpu → IsFresh ⟦<Cpu<S> as Listed>⟧.has_list cpu) }
        ensures consumer { IfOk result (λ s. (view_of s.consumer ≡ last_seat config.now) × All IsUnusedConsumer s.consumer.ends) }
    {
        let mut seats = seats;
        let mut cpus = Vec::with_capacity(alloc, seats.len())?;
        let mut ends = Vec::with_capacity(alloc, seats.len())?;
        for cpu in 0..config.cpus {
            let (end, other) = pair(alloc)?;
            let made = Cpu::make(alloc, cpu, config, *schema, seats.remove(0), end)?;
            cpus.push(made)?;
            ends.push(other)?;
        }
        let consumer = Consumer::make(alloc, config, seat, ends)?;
        Ok(Session {
            shared: Shared::make(words),
            cpus,
            consumer,
        })
    }

    /// A session of this configuration, in which nothing was called yet. It refuses the first field of the configuration that is
    /// out of range, and else answers Memory where a growth was refused. It takes all memory that its calls will need.
    pub fn start(alloc: Global, config: &Config, schema: S) -> Result<Session<S>, StartFault>
        ensures started { IfOk result (λ _. start_fault config.now ≡ None) }
        ensures refused { IfErr result (λ fault. fault ≢ start.Memory → start_fault config.now ≡ Some fault) }
        ensures memory { IfErr result (λ fault. fault ≡ start.Memory → start_fault config.now ≡ None) }
        ensures config { IfOk result (λ s. set_up (words_of s.shared) ≡ config.now) }
        ensures session { IfOk result (λ s. IsSession schema s) }
        ensures fresh { IfOk result (λ s. (c : ℕ) (cpu : Cpu S) → slice_get s.cpus.items c ≡ Some cpu → IsFresh ⟦<Cpu<S> as Listed>⟧.has_list cpu) }
        ensures consumer { IfOk result (λ s. (view_of s.consumer ≡ last_seat config.now) × All IsUnusedConsumer s.consumer.ends) }
    {
        let (words, seats, seat) = Words::start(alloc, config)?;
        let Ok(session) = Session::on_words(alloc, config, &schema, words, seats, seat) else {
            return Err(StartFault::Memory);
        };
        Ok(session)
    }
}
