ghost use Rattle.std.specs.Prelude.{◌≡◌};
ghost use Rattle.dspec.specs.Lanes.{place_of};

use dspec::{Enablings, Lane, Path, Probe, ProbeFault, Probes, Recording, Worker};
use dspec_threads::{Giver, Taker, open_within};

/// How often a worker looks for what it waits for.
const LOOKS: u32 = 10_000_000;

/// The beginning of a job, and each further stage.
#[derive(Clone, Copy, Drop)]
pub struct JobProbes {
    pub begun: Probe<(u32,)>,
    pub staged: Probe<(u32, u32)>,
}

impl JobProbes {
    /// Declares them.
    pub fn declare(probes: &mut Probes<'static>) -> Result<JobProbes, ProbeFault> {
        let begun = probes.probe("begun", &["job"])?;
        let staged = probes.probe("staged", &["job", "stage"])?;
        Ok(JobProbes { begun, staged })
    }
}

/// A worker: where its jobs come from, unless it begins them, where they go, unless it ends them, and how many it has done.
#[derive(Drop)]
pub struct Stage {
    from: Option<Taker>,
    to: Option<Giver>,
    probes: JobProbes,
    pub done: u32,
}

impl Stage {
    /// It has done none.
    pub fn new(from: Option<Taker>, to: Option<Giver>, probes: JobProbes) -> Stage {
        Stage {
            from,
            to,
            probes,
            done: 0,
        }
    }

    /// The path of the next job, with a record of this stage.
    fn begin(&mut self, lane: &mut Lane<'_, Enablings>, job: u32) -> Option<Path>
        ensures { place_of lane.new ≡ place_of lane.old }
    {
        let (Ok(begun), Ok(staged)) = (self.probes.begun.on(lane), self.probes.staged.on(lane))
        else {
            return None;
        };
        let Some(belt) = &mut self.from else {
            let path = open_within(lane, LOOKS);
            begun.record_in(lane, &path, 0, (job,));
            return Some(path);
        };
        let path = belt.take_within(lane, LOOKS)?;
        let stage = lane.number();
        staged.record_in(lane, &path, 0, (job, stage));
        Some(path)
    }

    /// Gives the path of a job to the next worker, or decides it: each fifth job fails.
    fn end(&mut self, lane: &mut Lane<'_, Enablings>, job: u32, path: Path)
        ensures { place_of lane.new ≡ place_of lane.old }
    {
        let rest = match &mut self.to {
            Some(belt) => belt.give(path).err(),
            None => Some(path),
        };
        if let Some(path) = rest {
            match job % 5 {
                0 => path.commit(lane),
                _ => path.discard(lane),
            };
        }
    }
}

impl Worker<Enablings> for Stage {
    fn work(&mut self, lane: &mut Lane<'_, Enablings>) {
        for job in 0..40 {
            if let Some(path) = self.begin(lane, job) {
                self.end(lane, job, path);
                self.done = self.done.wrapping_add(1);
            }
            lane.service();
        }
    }
}
