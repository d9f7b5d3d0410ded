use thiserror::Error;

/// Why a run was not written whole.
#[derive(Clone, Copy, Debug, PartialEq, Eq, Error)]
pub enum RunError {
    /// A write failed: exactly the first `written` bytes of the text were taken.
    #[error("a write failed after {written} bytes")]
    WriteFault { written: u64 },
    /// Memory is wanted.
    #[error("no memory")]
    Memory,
}
