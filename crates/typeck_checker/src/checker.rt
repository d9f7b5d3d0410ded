//! A checker of bodies.
ghost use Rattle.typeck_checker.specs.Tables.{AreTablesOf};

use crate::body_scope::BodyScope;
use crate::tables::Tables;
use std::alloc::Global;
use typeck_env::Walk;

/// How far the walk over a text has come, and where the expression stands that is checked. The typed nodes that no node
/// around them has taken yet stand in `walk.made`, the last of them at its end.
#[derive(Drop)]
pub struct Checker {
    pub alloc: Global,
    pub walk: Walk,
    pub around: BodyScope,
    pub tables: Tables,
    ghost ready: { AreTablesOf walk.items tables },
}
