ghost use Rattle.std.specs.Prelude.{◌≡◌, ◌<◌, length, IfErr, IfOk};
ghost use Rattle.dspec_session_core.specs.Sessions.{IsSession};
ghost use Rattle.dspec_replay.specs.Replayed.{IsSudden};

use crate::playing::SessionReplay;
use crate::session_fault::SessionFault;
use crate::taken::Basket;
use crate::texts::Replayed;
use dspec_cpu::{Cpu, Listed};
use dspec_deeds::Report;
use dspec_interleaving::{Close, Outcome, Series};
use dspec_record::Schema;
use dspec_session_core::Closed;
use std::alloc::Global;

/// What is left of a CPU is read after what was taken of it, and its report is put down.
fn read_left<S: Schema>(
    closed: &Closed,
    schema: &S,
    cpu: u32,
    basket: &mut Basket,
    reports: &mut Series<Report>,
) -> Result<(), SessionFault>
    requires { cpu < length closed.now }
    ensures { IfErr result IsSudden }
{
    let (sealed, last) = closed.rest(cpu);
    if let Some(batch) = sealed {
        basket.read(schema, cpu, batch)?;
    }
    basket.read(schema, cpu, last)?;
    reports.push(*closed.report(cpu))?;
    Ok(())
}

impl<S: Schema> SessionReplay<S> {
    /// Ends the session, and gives what a play leaves, but for the deeds, and the texts: what is left of each CPU is read after what
    /// was taken.
    pub fn close(self, alloc: Global) -> Result<Replayed, SessionFault>
        requires session { IsSession self.schema self.session }
        ensures answers { IfOk result (λ replayed. replayed.outcome.answers ≡ self.answers) }
        ensures refused { IfErr result IsSudden }
    {
        let mut basket = self.basket;
        let mut reports = Series::new(alloc);
        let cpus = self.session.cpus.len() as u32;
        let closed = self.session.finish();
        for cpu in 0..cpus {
            read_left(&closed, &self.schema, cpu, &mut basket, &mut reports)?;
        }
        let contents = basket.contents()?;
        let deeds = Series::new(alloc);
        let outcome = Outcome {
            close: Close {
                deeds,
                accepted: contents.streams,
                reports,
            },
            answers: self.answers,
        };
        Ok(Replayed {
            outcome,
            texts: contents.texts,
        })
    }
}
