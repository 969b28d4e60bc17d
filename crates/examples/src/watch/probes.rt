ghost use Rattle.std.specs.Prelude.{◌↔◌, IsTrue};
ghost use Rattle.dspec_record.specs.EnablingRows.{EnabledRows};
ghost use Rattle.dspec_probe.specs.Probes.{IsProbeOf};
ghost use Rattle.dspec_cpu.specs.Lists.{schema_of};
ghost use Rattle.examples.specs.WatchProbes.{AreServerProbesOf, step_fields};

use dspec::{Enablings, Lane, Probe, ProbeFault, Probes, Rec, Recording};

/// What a step of a request does.
#[derive(Debug, Clone, Copy, PartialEq, Eq)]
pub enum Action {
    Accept,
    Parse,
    Query,
    Answer,
}

impl Action {
    /// The name of its probe.
    pub fn name(self) -> &'static str {
        match self {
            Action::Accept => "accept",
            Action::Parse => "parse",
            Action::Query => "query",
            Action::Answer => "answer",
        }
    }
}

/// The probes of the server, one for each action. Each records the number of the request, and how many microseconds the step took.
#[derive(Debug, Clone, Copy)]
pub struct ServerProbes {
    accept: Probe<(u32, u32)>,
    parse: Probe<(u32, u32)>,
    query: Probe<(u32, u32)>,
    answer: Probe<(u32, u32)>,
}

/// The probe of an action.
fn declared<'n>(probes: &mut Probes<'n>, action: Action) -> Result<Probe<(u32, u32)>, ProbeFault> {
    probes.probe(action.name(), &["request", "micros"])
}

impl ServerProbes {
    /// Declares them.
    pub fn declare<'n>(probes: &mut Probes<'n>) -> Result<ServerProbes, ProbeFault> {
        Ok(ServerProbes {
            accept: declared(probes, Action::Accept)?,
            parse: declared(probes, Action::Parse)?,
            query: declared(probes, Action::Query)?,
            answer: declared(probes, Action::Answer)?,
        })
    }

    /// Whether the lane's schema has all of them.
    pub fn are_on(&self, lane: &Lane<'_, Enablings>) -> bool
        ensures { IsTrue result ↔ AreServerProbesOf self.now (schema_of lane.now.cpu.now) }
    {
        self.accept.on(lane).is_ok()
            && self.parse.on(lane).is_ok()
            && self.query.on(lane).is_ok()
            && self.answer.on(lane).is_ok()
    }

    /// The probe of an action.
    pub fn of(&self, action: Action) -> Probe<(u32, u32)>
        ensures { (schema : EnabledRows) → AreServerProbesOf self.now schema → IsProbeOf step_fields result schema }
    {
        match action {
            Action::Accept => self.accept,
            Action::Parse => self.parse,
            Action::Query => self.query,
            Action::Answer => self.answer,
        }
    }

    /// What a record tells: the action, the number of the request, and the microseconds.
    pub fn read(&self, rec: &Rec) -> Option<(Action, (u32, u32))> {
        for action in [Action::Accept, Action::Parse, Action::Query, Action::Answer] {
            if let Some(values) = self.of(action).read(rec) {
                return Some((action, values));
            }
        }
        None
    }
}
