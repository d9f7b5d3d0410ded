//! The limits within which a program and its run have to stay.

/// How many bytes a text may have.
pub const MAX_TEXT_BYTES: usize = 131072;

/// How deep items, blocks, arms, expressions, patterns and types may nest, the item at depth 1.
pub const MAX_NESTING: u32 = 64;

/// How many nodes a typed body may have.
pub const MAX_BODY_NODES: usize = 2048;

/// How many fields a struct or a variant may have.
pub const MAX_FIELDS: u32 = 32;

/// How many variants an enum may have.
pub const MAX_VARIANTS: u32 = 64;

/// How long an array may be.
pub const MAX_ARRAY_LENGTH: u32 = 32;

/// How many parts a tuple may have.
pub const MAX_TUPLE_PARTS: usize = 12;

/// How many numbers a run may be given for what it asks.
pub const MAX_ASKED: usize = 64;

/// The greatest number that a run may be given for what it asks.
pub const MAX_ASKED_NUMBER: u64 = 2147483647;

/// How many ticks a run may be given.
pub const MAX_TICKS: u64 = 1000000000;

/// The number of ticks of a run for which none is named.
pub const DEFAULT_TICKS: u64 = 10000;
