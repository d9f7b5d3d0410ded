//! What came before an item.
use crate::pairs::NamePairs;

/// What came before an item: the methods, each with its type, and the impls, each with its type and its trait.
#[derive(Drop)]
pub struct Before {
    pub methods: NamePairs,
    pub impls: NamePairs,
}
