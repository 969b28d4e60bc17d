ghost use Rattle.std.specs.Prelude.{◌≡◌};
ghost use Rattle.dspec_cpu.specs.Called.{called};
ghost use Rattle.dspec_cpu.specs.Lists.{schema_of};
ghost use Rattle.dspec.specs.Lanes.{place_of};
ghost use Rattle.examples.specs.WatchProbes.{AreServerProbesOf};
ghost use Rattle.examples.specs.WatchServing.{HandlesRequest};

use crate::watch::probes::ServerProbes;
use crate::watch::requests::{ROUNDS, Request};
use dspec::{Enablings, Lane, Recording, Work};

/// The steps of a request go to a path, which is kept where the request fails, and thrown away where it doesn't.
fn handle(lane: &mut Lane<'_, Enablings>, probes: &ServerProbes, request: Request)
    requires of { AreServerProbesOf probes.now (schema_of lane.old.cpu.now) }
    ensures same { place_of lane.new ≡ place_of lane.old }
    ensures handled { HandlesRequest request.fails (called lane.old.cpu.now) (called lane.new.cpu.now) }
{
    let path = lane.path();
    for place in 0..request.steps() {
        let (action, values) = request.step(place);
        probes.of(action).record_in(lane, &path, 0, values);
    }
    if request.fails {
        path.commit(lane);
    } else {
        path.discard(lane);
    }
}

/// What a worker does: it handles its requests, which the seed decides, and serves the consumer after each.
#[derive(Drop)]
pub struct Server {
    pub seed: u64,
    pub probes: ServerProbes,
}

impl Work<Enablings> for Server {
    ghost use Rattle.examples.specs.WatchProbes.{AreServerProbesOf};
    ghost use Rattle.examples.specs.WatchServing.{ServesRequests};

    ghost does = { λ schema server number before after. AreServerProbesOf server.probes schema → ServesRequests server.seed number before 100 after };

    fn work(&self, lane: &mut Lane<'_, Enablings>) {
        if !self.probes.are_on(lane) {
            return;
        }
        let worker = u64::from(lane.number());
        for round in 0..ROUNDS {
            handle(lane, &self.probes, Request::of(self.seed, worker, round));
            lane.service();
        }
    }
}
