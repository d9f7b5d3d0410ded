//! Fields of structs and parts of tuples (The Rust Reference, "Field access expressions", "Tuple indexing
//! expressions").
ghost use Rattle.std.specs.Prelude.{◌≡◌, IfErr, IfOk, option_and_then, option_map};
ghost use Rattle.mir_base.specs.declared.rule.RuleError.{RuleError};
ghost use Rattle.typeck_calls.specs.Fields.{number_in, numbered, part_seen, wanted_by};
ghost use Rattle.typeck_calls.specs.Going.{GivesFound};
ghost use Rattle.src_ast.specs.Syntax.{number_word};
ghost use Rattle.typeck_checker.specs.Stand.{Gives, KeepsStack, below, stack, state, top};
ghost use Rattle.typing_rules.specs.Places as places;
ghost use Rattle.typing_rules.specs.Scope as scope;
ghost use Rattle.well_typed.specs.Types as types;
ghost use Rattle.typing_rules.specs.Rows.{field_end};

use crate::autoderef::{go_inside, most_steps};
use mir_base::{Name, NodeId, Pos, Rule, RuleError};
use mir_ty::{Items, Ty, TyId};
use std::alloc::{AllocError, Global};
use std::fmt::Write;
use typeck_checker::{Checker, One};
use typeck_env::{adt_of, inside_of, is_enum};
use typeck_heads::broken_rule;

/// A field of a struct or a part of a tuple, by its number from 0.
#[derive(Clone, Copy)]
pub struct MemberPart {
    pub number: u32,
    pub ty: TyId,
}

/// What is looked for of a type.
#[derive(Clone, Copy)]
pub enum WantedMember<'a> {
    /// The field of this name.
    Named(&'a str),
    /// The part of this number, or the field whose name is that number in decimal digits.
    Numbered { number: u64, word: &'a str },
}

/// The number of a field of a variant by its name; the variant of a struct is 0.
#[tactic(auto, using(crate::proofs::Names::field_some, crate::proofs::Names::field_none, crate::proofs::Names::field_nothing))]
pub fn field_named(checker: &Checker, adt: u32, variant: u32, name: &str) -> Option<u32>
    ensures rules { result ≡ option_and_then (λ v. scope.field_named v name.now) (types.variant_at checker.now.walk.items adt variant) }
    ensures tables { result ≡ number_in checker.now.tables adt variant name.now }
{
    match checker.tables.members.get(adt as usize) {
        Some(names) => match names.fields.get(variant as usize) {
            Some(fields) => fields.find(name),
            None => None,
        },
        None => None,
    }
}

fn part_of(fields: &[TyId], number: u32) -> Option<MemberPart>
    ensures { option_map part_seen result ≡ places.part_with fields.now number }
{
    match fields.get(number as usize) {
        Some(ty) => Some(MemberPart { number, ty: *ty }),
        None => None,
    }
}

/// A field of a struct by its number.
fn field_at(items: &Items, adt: u32, number: u32) -> Option<MemberPart>
    ensures { option_map part_seen result ≡ option_and_then (λ v. places.part_with v.fields number) (types.variant_at items.now adt 0) }
{
    match items.adt(adt) {
        Some(def) => match def.variants.get(0) {
            Some(variant) => part_of(variant.fields.as_slice(), number),
            None => None,
        },
        None => None,
    }
}

/// A field of a struct by its name.
#[tactic(auto, using(crate::proofs::Names::at_name, crate::proofs::Names::at_no_name))]
fn field_in(checker: &Checker, adt: u32, name: &str) -> Option<MemberPart>
    ensures { option_map part_seen result ≡ option_and_then (λ v. option_and_then (places.part_with v.fields) (scope.field_named v name.now)) (types.variant_at checker.now.walk.items adt 0) }
{
    match field_named(checker, adt, 0, name) {
        Some(number) => field_at(&checker.walk.items, adt, number),
        None => None,
    }
}

fn struct_field(checker: &Checker, ty: TyId, name: &str) -> Option<MemberPart>
    ensures { option_map part_seen result ≡ places.struct_field name.now checker.now.walk.items ty }
{
    match adt_of(&checker.walk.items, ty) {
        Some(adt) => {
            if is_enum(&checker.walk.items, adt) {
                None
            } else {
                field_in(checker, adt, name)
            }
        }
        None => None,
    }
}

/// A part of a tuple.
#[tactic(auto, using(crate::proofs::Names::few_parts))]
fn tuple_part(items: &Items, ty: TyId, number: u64) -> Option<MemberPart>
    ensures { option_map part_seen result ≡ option_and_then (λ tys. places.part_with tys number) (types.tuple_of items.now ty) }
{
    match items.ty(ty) {
        Some(Ty::Tuple(parts)) => match parts.get(number as usize) {
            Some(part) => Some(MemberPart {
                number: number as u32,
                ty: *part,
            }),
            None => None,
        },
        _ => None,
    }
}

fn numbered_part(checker: &Checker, ty: TyId, number: u64, word: &str) -> Option<MemberPart>
    ensures { option_map part_seen result ≡ numbered number word.now checker.now.walk.items ty }
{
    match tuple_part(&checker.walk.items, ty, number) {
        Some(part) => Some(part),
        None => struct_field(checker, ty, word),
    }
}

/// What a type has of what is looked for.
fn member(checker: &Checker, ty: TyId, wanted: WantedMember) -> Option<MemberPart>
    ensures { option_map part_seen result ≡ wanted_by wanted.entry checker.now.walk.items ty }
{
    match wanted {
        WantedMember::Named(name) => struct_field(checker, ty, name),
        WantedMember::Numbered { number, word } => numbered_part(checker, ty, number, word),
    }
}

/// The last node through boxes and references, up to the first type that has what is looked for.
fn through(
    checker: &mut Checker,
    at: Pos,
    wanted: WantedMember,
) -> Result<Option<MemberPart>, RuleError>
    ensures gives { GivesFound part_seen (places.through (wanted_by wanted.entry) at (top (stack checker.old)) (state checker.old)) result checker.new }
    ensures kept { KeepsStack (below (stack checker.old)) checker.old result checker.new }
{
    let count = most_steps(checker);
    for _step in 0..count {
        let ty = checker.last_ty();
        let found = member(checker, ty, wanted);
        if found.is_some() {
            return Ok(found);
        }
        match inside_of(&checker.walk.items, ty) {
            Some(inside) => go_inside(checker, at, inside)?,
            None => return Ok(None),
        }
    }
    Err(RuleError::cannot_be())
}

fn wanted_end(
    checker: &mut Checker,
    id: NodeId,
    at: Pos,
    wanted: WantedMember,
) -> Result<(), RuleError>
    ensures gives { Gives (field_end (wanted_by wanted.entry) id.0 at (top (stack checker.old)) (state checker.old)) result checker.new }
    ensures kept { KeepsStack (below (stack checker.old)) checker.old result checker.new }
{
    match through(checker, at, wanted)? {
        Some(part) => checker.wrap_one(id, at, part.ty, One::Field(part.number)),
        None => Err(broken_rule(Rule::T12, at)),
    }
}

/// `e.f`, where `e` is the last node.
pub fn field_end(checker: &mut Checker, id: NodeId, at: Pos, name: &str) -> Result<(), RuleError>
    ensures gives { Gives (field_end (places.struct_field name.now) id.0 at (top (stack checker.old)) (state checker.old)) result checker.new }
    ensures kept { KeepsStack (below (stack checker.old)) checker.old result checker.new }
{
    wanted_end(checker, id, at, WantedMember::Named(name))
}

/// A number in decimal digits.
#[tactic(auto, using(typeck_heads::proofs::Decimal::decimal_word))]
fn digits(alloc: Global, number: u64) -> Result<Name, AllocError>
    ensures { IfOk result (λ name. name ≡ number_word number) }
{
    let mut text = String::new(alloc);
    write!(text, "{number}")?;
    Ok(Name::from_string(text))
}

/// `e.0`, where `e` is the last node.
pub fn part_end(checker: &mut Checker, id: NodeId, at: Pos, number: u64) -> Result<(), RuleError>
    ensures gives { Gives (field_end (places.numbered_part number) id.0 at (top (stack checker.old)) (state checker.old)) result checker.new }
    ensures kept { KeepsStack (below (stack checker.old)) checker.old result checker.new }
{
    match digits(checker.alloc, number) {
        Ok(word) => {
            let word = word.as_str();
            wanted_end(checker, id, at, WantedMember::Numbered { number, word })
        }
        Err(_) => Err(RuleError::Memory),
    }
}
