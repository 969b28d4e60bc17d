ghost use Rattle.std.specs.Prelude.{◌≡◌, length};
ghost use Rattle.dspec_session_core.specs.Stopping.{Stopped};
ghost use Rattle.dspec_session.specs.{Races.AllBalanced, Races.AllTold, Races.HaveOffered, Races.IsDemonstrated, Results.AllFollow, Results.IsEndOf};

use super::four::Four;
use super::lines::{DemoLine, line_of};
use super::order::Order;
use dspec_record::Enablings;
use dspec_session_core::{Closed, Session};

/// Stops the session.
pub(crate) fn stop(session: Session<Enablings>) -> Session<Enablings>
    requires { IsDemonstrated session }
    ensures session { IsDemonstrated result }
    ensures cpus { result.cpus ≡ session.cpus }
    ensures stopped { Stopped session.consumer result.consumer }
{
    let mut session = session;
    session.consumer.stop(&session.shared);
    session
}

// Ends the session.
fn end(session: Session<Enablings>) -> Closed
    requires session { IsDemonstrated session }
    requires four { length session.cpus.items ≡ 4 }
    requires offered { HaveOffered 200 session.cpus.items }
    ensures four { length result ≡ 4 }
    ensures told { AllTold 200 result }
    ensures closed { IsEndOf session result }
{
    session.finish()
}

/// The lines of a session whose CPUs have finished, where what was taken from them had these orders.
pub(crate) fn tell(
    session: Session<Enablings>,
    schema: &Enablings,
    orders: Four<Order>,
) -> [DemoLine; 4]
    requires session { IsDemonstrated session }
    requires four { length session.cpus.items ≡ 4 }
    requires offered { HaveOffered 200 session.cpus.items }
    ensures balanced { AllBalanced 200 result }
    ensures ordered { AllFollow schema.now session orders result }
{
    let closed = end(session);
    [
        line_of(&closed, schema, 0, orders.first),
        line_of(&closed, schema, 1, orders.second),
        line_of(&closed, schema, 2, orders.third),
        line_of(&closed, schema, 3, orders.fourth),
    ]
}
