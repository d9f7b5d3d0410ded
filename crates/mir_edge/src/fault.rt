use thiserror::Error;

/// A read or a write failed. It comes only where the source or sink counted a fault in the call.
#[derive(Clone, Copy, Debug, PartialEq, Eq, Error)]
#[error("a read or a write failed")]
pub struct Fault;
