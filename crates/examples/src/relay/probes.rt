use dspec::{Probe, ProbeFault, Probes};

/// The probes of the server, each with the types of its fields.
#[derive(Clone, Copy, Drop)]
pub struct RequestProbes {
    /// On a path: the number of the request.
    pub accepted: Probe<(u32,)>,
    /// On a path: the number of the request, and how many microseconds it took.
    pub answered: Probe<(u32, u32)>,
    /// Traced for the reader: the word of the request's path, and how many microseconds it took.
    pub ended: Probe<(u64, u32)>,
}

impl RequestProbes {
    /// Declares them.
    pub fn declare(probes: &mut Probes<'static>) -> Result<RequestProbes, ProbeFault> {
        let accepted = probes.probe("accepted", &["request"])?;
        let answered = probes.probe("answered", &["request", "micros"])?;
        let ended = probes.probe("ended", &["path", "micros"])?;
        Ok(RequestProbes {
            accepted,
            answered,
            ended,
        })
    }
}
