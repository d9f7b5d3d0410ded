//! What the machine holds of a run besides its storage: what waits, and what is done next.
use crate::whole::Whole;
use cfg_graph::Unwind;
use machine_steps::{Drops, Turn};
use machine_store::Dynamic;
use mir_base::End;

/// A block that waits for what its terminator does, and the ways on from there.
#[derive(Clone, Copy)]
pub struct Post {
    /// The number of the body.
    pub number: u32,
    pub block: u32,
    /// The block in which the body goes on.
    pub onward: u32,
    /// Where a panic goes on.
    pub unwind: Unwind,
}

/// A body that waits for another one.
#[derive(Drop)]
pub enum Task {
    /// For one that it called, whose result it stores; `lost` where the place of the result has the type `!`.
    Call {
        post: Post,
        lost: bool,
    },
    /// For the `Drop` body of what a drop found so, after which the drop goes on.
    Drop {
        post: Post,
        drops: Drops,
        dynamic: Dynamic,
    },
}

/// What is done next.
#[derive(Drop)]
pub enum Doing {
    /// The youngest body goes on in a block.
    Walks {
        number: u32,
        block: u32,
    },
    /// A drop of the youngest body makes a turn.
    Drops {
        post: Post,
        drops: Drops,
        turn: Turn,
    },
    /// The youngest body has returned this.
    Returned(Whole),
    /// The youngest body has ended by unwinding.
    Unwound,
    /// The run has ended.
    Ended(End),
}
