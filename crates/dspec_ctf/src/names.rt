use dspec_probe::ProbeNames;

/// What the events and fields of enablings are called.
#[derive(Debug, Clone, Copy)]
pub enum Names<'a> {
    /// Events are `epid_1`, `epid_2`, .. by their EPIDs, the fields of each `arg_0`, `arg_1`, ..
    Numbered,
    /// Of each enabling its names, in the order of the EPIDs: an event is called as its probe.
    Given(&'a [ProbeNames<'a>]),
}
