ghost use Rattle.std.specs.Prelude.{◌≡◌, true, IfSome, length};
ghost use Rattle.dspec_session.specs.{Races.all_finished, Races.HaveMade, Races.HaveOffered, Races.HaveRoom, Races.IsDemonstrated, Visits.ConsumerRounds, Visits.none_taken};

use super::crew::{Back, Crew, run};
use super::four::Four;
use super::order::Order;
use super::team::{put_all, take_all};
use crate::gate::RoundGate;
use dspec_record::Enablings;
use dspec_session_core::Session;
use std::sync::Wait;
use std::thread::Threads;

/// What is known when all threads have ended: the session, whether every CPU finished, and the order of what was taken.
#[derive(Drop)]
pub(crate) struct Raced {
    pub(crate) session: Session<Enablings>,
    pub(crate) finished: bool,
    pub(crate) orders: Four<Order>,
}

// Whether every worker finished.
fn have_finished(workers: &Four<Back>) -> bool
    ensures { result ≡ all_finished workers.now }
{
    workers.first.1 && (workers.second.1 && (workers.third.1 && workers.fourth.1))
}

/// Runs a session of four CPUs in threads. None: not all of the threads could be made; those that were have ended.
pub(crate) fn race<G: RoundGate, R: Threads + Wait>(
    rt: &R,
    gate: &G,
    schema: &Enablings,
    session: Session<Enablings>,
) -> Option<Raced>
    requires session { IsDemonstrated session }
    requires four { length session.cpus.items ≡ 4 }
    requires room { HaveRoom session.cpus.items }
    requires fresh { HaveOffered 0 session.cpus.items }
    ensures session { IfSome result (λ raced. IsDemonstrated raced.session) }
    ensures four { IfSome result (λ raced. length raced.session.cpus.items ≡ 4) }
    ensures offered { IfSome result (λ raced. raced.finished ≡ true → HaveOffered 200 raced.session.cpus.items) }
    ensures consumer { IfSome result (λ raced. ConsumerRounds schema.now session.consumer none_taken 1000 raced.session.consumer raced.orders) }
    ensures rounds { IfSome result (λ raced. raced.finished ≡ true → HaveMade session.cpus.items raced.session.cpus.items) }
{
    let Session {
        shared,
        cpus,
        consumer,
    } = session;
    let mut cpus = cpus;
    let team = take_all(&mut cpus);
    let crew = run(rt, gate, schema, &shared, team, consumer)?;
    let Crew {
        workers,
        consumer,
        orders,
    } = crew;
    let finished = have_finished(&workers);
    let Four {
        first,
        second,
        third,
        fourth,
    } = workers;
    put_all(&mut cpus, first.0, second.0, third.0, fourth.0);
    let session = Session {
        shared,
        cpus,
        consumer,
    };
    Some(Raced {
        session,
        finished,
        orders,
    })
}
