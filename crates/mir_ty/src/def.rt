use crate::TyId;
use mir_base::{List, Name};

/// The head of a body, or of a trait's method.
#[derive(Drop)]
pub struct Sig {
    pub name: Name,
    /// The types of the parameters in order, that of `self` first where there is one.
    pub params: List<TyId>,
    pub result: TyId,
}

/// A trait.
#[derive(Drop)]
pub struct TraitDef {
    pub name: Name,
    /// The heads of its methods, in the order of their declaration.
    pub methods: List<Sig>,
}

/// An impl of a trait for a struct or an enum.
#[derive(Drop)]
pub struct ImplDef {
    pub trait_no: u32,
    pub adt: u32,
    /// The bodies of its methods, in the order of the trait's methods.
    pub bodies: List<u32>,
}

/// A closure.
#[derive(Drop)]
pub struct ClosureDef {
    /// The types of what it captures, in the order of the written list.
    pub captures: List<TyId>,
    pub body: u32,
}
