//! What is known of the code that ends with a word.

/// Where the code that ends with a word begins, and whether a run comes behind it (of a loop: whether a `break` leaves
/// it). Words are counted from 0.
#[derive(Clone, Copy)]
pub struct CodeMark {
    /// Its first word.
    pub start: usize,
    /// How many jumps are known before its own.
    pub jumps: usize,
    /// Of an arm: whether a run comes behind it or one of the arms before it.
    pub has_end: bool,
    /// Of an arm, and of the word before all arms: that word.
    pub arms: usize,
}
