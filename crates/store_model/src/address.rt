use crate::Path;
use mir_base::Key;

/// One step from a value to a part of it.
///
/// The default stands for itself alone: a short path fills its places with it.
#[derive(Clone, Copy, Default, PartialEq, Eq)]
pub enum At {
    /// To the part with this number of a struct, a variant, a tuple, an array or a closure, counted from 0.
    Part(u32),
    /// To the content of a box.
    #[default]
    Inside,
}

/// A path from a value to a part of it.
pub type AtPath = Path<At>;

/// Where a value stands: in an entry of an activation, at the end of a path.
#[derive(Drop)]
pub struct Addr {
    /// The depth of the activation among those that have not ended.
    pub depth: u32,
    /// What the entry goes by.
    pub key: Key,
    /// The steps from the value of the entry.
    pub path: AtPath,
}
