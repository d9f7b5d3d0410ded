//! Plans of drops.
use mir_base::List;
use std::alloc::Global;

/// How what remains of a place is dropped.
#[derive(Drop)]
#[cycle(plan)]
pub enum Plan {
    /// Nothing that has to be dropped stands there on any path.
    Nothing,
    /// All of it stands there: one drop.
    Entire,
    /// Its own part stands there where the flag is set.
    ByFlag {
        flag: u32,
        plan: Box<Plan, Global>,
    },
    /// The parts in order; each tells of itself.
    InParts(List<Plan>),
    /// What remains of the content, and then the box is freed, where the flag is set, if there is one.
    OfBox {
        guard: Option<u32>,
        inside: Box<Plan, Global>,
    },
    /// The parts of the variant that stands there, by the plan of that variant.
    ByVariant(List<VariantPlan>),
}

/// How the parts of a variant are dropped.
#[derive(Drop)]
#[cycle(plan)]
pub struct VariantPlan {
    pub parts: List<Plan>,
}
