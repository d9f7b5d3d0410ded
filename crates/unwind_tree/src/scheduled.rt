use cfg_graph::Place;
use mir_base::Key;

/// What is to be dropped as a scope is left: an entry of it, by its key, and the place where its value stands.
#[derive(Drop)]
pub struct Scheduled {
    pub key: Key,
    pub place: Place,
}
