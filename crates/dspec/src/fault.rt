use thiserror::Error;

/// The lane's schema doesn't have the probe: it was declared for another session, or after the session's start.
#[derive(Debug, Clone, Copy, PartialEq, Eq, Error)]
#[error("the schema doesn't have the probe")]
pub struct ForeignProbe;
