use crate::Ways;
use bumpalo::Bump;
use lower_passes::{LoweringFrame, Scopes, Spans};

/// What code is built in: the body, its words, how many scopes the code at each may change, where jumps go, the arena in
/// which scopes are made, and the scopes before the code.
#[derive(Clone, Copy)]
pub struct BuildContext<'a> {
    pub frame: LoweringFrame<'a>,
    pub code: Spans<'a>,
    pub reaches: &'a [Option<u32>],
    pub ways: Ways<'a>,
    pub arena: &'a Bump,
    pub scopes: &'a Scopes<'a>,
}
