use machine_store::Dynamic;

/// A container around what is being dropped.
#[derive(Clone, Copy)]
pub enum Level {
    /// A struct, a variant, a tuple, an array or a closure: its parts from a number on are still to be dropped.
    Parts {
        /// As what it was found.
        dynamic: Dynamic,
        variant: u32,
        /// The part that is dropped next.
        next: u32,
        /// How many parts it has.
        total: usize,
        /// How many ticks were left as it was read. While none was spent since, its parts stand as they were read.
        ticks: u64,
    },
    /// A box, whose content is dropped before it is freed.
    Content {
        dynamic: Dynamic,
    },
}
