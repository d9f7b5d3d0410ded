//! G3 of statements and terminators: what they store and take has the types that they give and want.
ghost use Rattle.std.specs.Prelude.{◌≡◌, ◌&&◌, not, false, option_and_then, slice_get};
ghost use Rattle.std.specs.List.{list_all};
ghost use Rattle.std.specs.Option.{option_copied, option_map_or};
ghost use Rattle.mir_base.specs.declared.int_kind.IntKind.TheVariants.{I32};
ghost use Rattle.mir_ty.specs.ItemTable.{type_at};
ghost use Rattle.mir_ty.specs.Parts.{captures_of};
ghost use Rattle.store_model.specs.Places.TypeForms.{same_id, is_int, is_dyn_of as dyn_of_type, adt_of, referent, are_compared as compared_types, is_signed as signed_type, tuple_parts, same_int, box_content};
ghost use Rattle.cfg_graph.specs.Places.{ty_of_place as type_of_place, ty_of_operand, place_id as place_number};
ghost use Rattle.cfg_graph.specs.Uses.{operands_of_stmt, operands_of_term};
ghost use Rattle.cfg_graph.specs.WellFormed.TypeFaults.{is_drop_body as drop_body, is_drop_body_of};
ghost use Rattle.cfg_graph.specs.WellFormed.Questions.{listed};
ghost use Rattle.cfg_graph.specs.WellFormed.Typing.{operand_is as operand_has, operands_are as operands_have, are_elements as elements_have, calls as call_fits, stmt_has_types as stmt_types_fit, term_has_types as term_types_fit, is_sized, operand_stands as operand_may_stand, stmt_is_typed as stmt_typed, term_is_typed as term_typed, method_at as method_of, variant_at as variant_of, enum_variant as enum_has, constant_fits as constant_inside, is_started as panic_starts};

use crate::line_places::{
    PlaceTest, operands_of, operands_of_end, stmt_passes, stored_of, stored_of_end, term_passes,
};
use crate::place_types::{
    are_one_kind, content_of_box, is_adt_of, is_bool, is_closure_of, is_dyn, is_kind, kind_of,
    number_of_adt, operand_content, operand_is_bool, operand_is_dyn, operand_kind, place_ty,
    referent_of, ty_of_place,
};
use crate::{Operand, Place, Stmt, Term};
use mir_base::{IntKind, Why, greatest, least};
use mir_ty::{Adt, Items, Sig, Ty, TyId, Variant};

/// The method of a trait; `None` where the trait or the method does not exist.
pub fn method_at(items: &Items, trait_no: u32, method: u32) -> Option<&Sig>
    ensures { option_copied result ≡ method_of items.now trait_no method }
{
    items.trait_def(trait_no)?.methods.get(method as usize)
}

fn variant_at(items: &Items, adt: u32, variant: u32) -> Option<&Variant>
    ensures { option_copied result ≡ variant_of items.now adt variant }
{
    items.adt(adt)?.variants.get(variant as usize)
}

fn is_variant_of_enum(items: &Items, adt: u32, variant: u32) -> bool
    ensures { result ≡ enum_has items.now adt variant }
{
    match items.adt(adt) {
        Some(def) => def.is_enum && variant_at(items, adt, variant).is_some(),
        None => false,
    }
}

/// Whether a place is of the type with this number.
fn has_id(items: &Items, locals: &[TyId], place: &Place, id: TyId) -> bool
    ensures { result ≡ option_map_or (same_id id) (place_number items.now locals.now place.now) false }
{
    match place_ty(items, locals, place) {
        Some(found) => id.0 == found.0,
        None => false,
    }
}

/// Whether an operand is of the type with this number.
fn operand_is(items: &Items, locals: &[TyId], id: TyId, operand: &Operand) -> bool
    ensures { result ≡ operand_has items.now locals.now id operand.now }
{
    match operand {
        Operand::Copied(place) | Operand::Moved(place) => has_id(items, locals, place, id),
        Operand::Number(_, kind) => is_kind(*kind, items.ty(id)),
        Operand::Truth(_) => is_bool(items.ty(id)),
        Operand::Unit => matches!(items.ty(id), Some(Ty::Unit)),
    }
}

/// Whether operands are as many as the types, and each is of its type.
fn operands_are(items: &Items, locals: &[TyId], types: &[TyId], operands: &[Operand]) -> bool
    ensures { result ≡ operands_have items.now locals.now types.now operands.now }
{
    match types {
        [] => operands.is_empty(),
        [id, other_types @ ..] => match operands {
            [] => false,
            [operand, others @ ..] => {
                operand_is(items, locals, *id, operand)
                    && operands_are(items, locals, other_types, others)
            }
        },
    }
}

/// Whether what a call stores and takes is what a signature says.
fn calls(items: &Items, locals: &[TyId], to: &Place, args: &[Operand], sig: &Sig) -> bool
    ensures { result ≡ call_fits items.now locals.now to.now args.now sig.now }
{
    operands_are(items, locals, sig.params.as_slice(), args)
        && has_id(items, locals, to, sig.result)
}

fn puts(items: &Items, locals: &[TyId], to: &Place, from: &Operand) -> bool
    ensures { result ≡ option_map_or (λ id. operand_has items.now locals.now id from.now) (place_number items.now locals.now to.now) false }
{
    match place_ty(items, locals, to) {
        Some(id) => operand_is(items, locals, id, from),
        None => false,
    }
}

#[tactic(auto, using(crate::proofs::OneKind::kinds_compared))]
fn are_compared(items: &Items, locals: &[TyId], left: &Operand, right: &Operand) -> bool
    ensures { result ≡ compared_types (ty_of_operand items.now locals.now left.now) (ty_of_operand items.now locals.now right.now) }
{
    are_one_kind(
        operand_kind(items, locals, left),
        operand_kind(items, locals, right),
    ) || (operand_is_bool(items, locals, left) && operand_is_bool(items, locals, right))
}

fn makes_tuple(items: &Items, locals: &[TyId], to: &Place, parts: &[Operand]) -> bool
    ensures { result ≡ option_map_or (λ types. operands_have items.now locals.now types parts.now) (tuple_parts (type_of_place items.now locals.now to.now)) false }
{
    match ty_of_place(items, locals, to) {
        Some(Ty::Tuple(types)) => operands_are(items, locals, types.as_slice(), parts),
        _ => false,
    }
}

fn all_are(items: &Items, locals: &[TyId], id: TyId, operands: &[Operand]) -> bool
    ensures { result ≡ list_all (operand_has items.now locals.now id) operands.now }
{
    operands
        .iter()
        .all(|operand| operand_is(items, locals, id, operand))
}

fn makes_array(items: &Items, locals: &[TyId], to: &Place, parts: &[Operand]) -> bool
    ensures { result ≡ elements_have items.now locals.now parts.now (type_of_place items.now locals.now to.now) }
{
    match ty_of_place(items, locals, to) {
        Some(Ty::Array(element, count)) => {
            parts.len() == *count as usize && all_are(items, locals, *element, parts)
        }
        _ => false,
    }
}

fn has_fields(items: &Items, locals: &[TyId], adt: u32, variant: u32, parts: &[Operand]) -> bool
    ensures { result ≡ option_map_or (λ made. operands_have items.now locals.now made.fields parts.now) (variant_of items.now adt variant) false }
{
    match variant_at(items, adt, variant) {
        Some(made) => operands_are(items, locals, made.fields.as_slice(), parts),
        None => false,
    }
}

fn has_captures(items: &Items, locals: &[TyId], closure: u32, parts: &[Operand]) -> bool
    ensures { result ≡ operands_have items.now locals.now (captures_of (slice_get items.now.closures closure)) parts.now }
{
    match items.closure_def(closure) {
        Some(def) => operands_are(items, locals, def.captures.as_slice(), parts),
        None => parts.is_empty(),
    }
}

fn makes_box(items: &Items, locals: &[TyId], to: &Place, operand: &Operand) -> bool
    ensures { result ≡ option_map_or (λ id. operand_has items.now locals.now id operand.now) (box_content (type_of_place items.now locals.now to.now)) false }
{
    match content_of_box(ty_of_place(items, locals, to)) {
        Some(id) => operand_is(items, locals, id, operand),
        None => false,
    }
}

fn is_dyn_box(items: &Items, locals: &[TyId], to: &Place, trait_no: u32) -> bool
    ensures { result ≡ dyn_of_type trait_no (option_and_then (type_at items.now) (box_content (type_of_place items.now locals.now to.now))) }
{
    match content_of_box(ty_of_place(items, locals, to)) {
        Some(id) => match items.ty(id) {
            Some(Ty::Dyn(found)) => trait_no == *found,
            _ => false,
        },
        None => false,
    }
}

fn borrows(items: &Items, locals: &[TyId], to: &Place, unique: bool, of: &Place) -> bool
    ensures { result ≡ option_map_or (λ id. option_map_or (same_id id) (referent unique (type_of_place items.now locals.now to.now)) false) (place_number items.now locals.now of.now) false }
{
    match place_ty(items, locals, of) {
        Some(id) => match referent_of(unique, ty_of_place(items, locals, to)) {
            Some(found) => id.0 == found.0,
            None => false,
        },
        None => false,
    }
}

#[tactic(auto, using(crate::proofs::OneKind::kind_of_int))]
fn operand_is_kind(items: &Items, locals: &[TyId], kind: IntKind, operand: &Operand) -> bool
    ensures { result ≡ is_int kind (ty_of_operand items.now locals.now operand.now) }
{
    are_one_kind(Some(kind), operand_kind(items, locals, operand))
}

/// Whether what a statement stores is of the type of its place.
fn stmt_has_types(items: &Items, locals: &[TyId], stmt: &Stmt) -> bool
    ensures { result ≡ stmt_types_fit items.now locals.now stmt.now }
{
    match stmt {
        Stmt::Put(to, from) => puts(items, locals, to, from),
        Stmt::Compare(to, _, left, right) => {
            is_bool(ty_of_place(items, locals, to)) && are_compared(items, locals, left, right)
        }
        Stmt::Not(to, operand) => {
            is_bool(ty_of_place(items, locals, to)) && operand_is_bool(items, locals, operand)
        }
        Stmt::Tuple(to, parts) => makes_tuple(items, locals, to, parts.as_slice()),
        Stmt::Array(to, parts) => makes_array(items, locals, to, parts.as_slice()),
        Stmt::Make {
            to,
            adt,
            variant,
            parts,
        } => {
            is_adt_of(*adt, ty_of_place(items, locals, to))
                && has_fields(items, locals, *adt, *variant, parts.as_slice())
        }
        Stmt::Close { to, closure, parts } => {
            is_closure_of(*closure, ty_of_place(items, locals, to))
                && has_captures(items, locals, *closure, parts.as_slice())
        }
        Stmt::NewBox(to, operand) => makes_box(items, locals, to, operand),
        Stmt::Unsize { to, trait_no, from } => {
            is_dyn_box(items, locals, to, *trait_no)
                && operand_content(items, locals, from).is_some()
        }
        Stmt::Borrow { to, unique, of } => borrows(items, locals, to, *unique, of),
        Stmt::Print(operand) => operand_is_kind(items, locals, IntKind::I32, operand),
        Stmt::Touch(_) | Stmt::Forget(_) => true,
        Stmt::Free(place) => content_of_box(ty_of_place(items, locals, place)).is_some(),
    }
}

fn is_case(items: &Items, locals: &[TyId], on: &Place, variant: u32) -> bool
    ensures { result ≡ option_map_or (λ adt. enum_has items.now adt variant) (adt_of (type_of_place items.now locals.now on.now)) false }
{
    match number_of_adt(ty_of_place(items, locals, on)) {
        Some(adt) => is_variant_of_enum(items, adt, variant),
        None => false,
    }
}

/// Whether the operand is of the integer type that the place has.
#[tactic(auto, using(crate::proofs::OneKind::kinds_of_two))]
fn is_of_kind(items: &Items, locals: &[TyId], operand: &Operand, to: &Place) -> bool
    ensures { result ≡ same_int (ty_of_operand items.now locals.now operand.now) (type_of_place items.now locals.now to.now) }
{
    are_one_kind(
        operand_kind(items, locals, operand),
        kind_of(ty_of_place(items, locals, to)),
    )
}

#[tactic(auto, using(crate::proofs::OneKind::kinds_of_two))]
fn are_of_one_kind(items: &Items, locals: &[TyId], left: &Operand, right: &Operand) -> bool
    ensures { result ≡ same_int (ty_of_operand items.now locals.now left.now) (ty_of_operand items.now locals.now right.now) }
{
    are_one_kind(
        operand_kind(items, locals, left),
        operand_kind(items, locals, right),
    )
}

fn is_signed(items: &Items, locals: &[TyId], operand: &Operand) -> bool
    ensures { result ≡ signed_type (ty_of_operand items.now locals.now operand.now) }
{
    operand_is_kind(items, locals, IntKind::I32, operand)
        || operand_is_kind(items, locals, IntKind::I64, operand)
}

fn drops_by(adt: &Adt, body: u32) -> bool
    ensures { result ≡ is_drop_body_of body adt.now }
{
    match adt.drop_body {
        Some(found) => body == found,
        None => false,
    }
}

/// Whether a body is that of a `Drop` impl. It looks at each struct and enum.
pub fn is_drop_body(items: &Items, body: u32) -> bool
    ensures { result ≡ drop_body items.now body }
{
    let mut n: u32 = 0;
    while let Some(adt) = items.adt(n) {
        if drops_by(adt, body) {
            return true;
        }
        n += 1;
    }
    false
}

fn calls_body(items: &Items, locals: &[TyId], to: &Place, body: u32, args: &[Operand]) -> bool
    ensures { result ≡ (option_map_or (call_fits items.now locals.now to.now args.now) (slice_get items.now.bodies body) false && not (drop_body items.now body)) }
{
    match items.body_sig(body) {
        Some(sig) => calls(items, locals, to, args, sig) && !is_drop_body(items, body),
        None => false,
    }
}

fn calls_method(
    items: &Items,
    locals: &[TyId],
    to: &Place,
    trait_no: u32,
    method: u32,
    args: &[Operand],
) -> bool
    ensures { result ≡ option_map_or (call_fits items.now locals.now to.now args.now) (method_of items.now trait_no method) false }
{
    match method_at(items, trait_no, method) {
        Some(sig) => calls(items, locals, to, args, sig),
        None => false,
    }
}

fn is_started(why: Why) -> bool
    ensures { result ≡ panic_starts why }
{
    matches!(why, Why::Explicit | Why::Match)
}

/// Whether what a terminator takes and stores is of the types that it wants.
fn term_has_types(items: &Items, locals: &[TyId], term: &Term) -> bool
    ensures { result ≡ term_types_fit items.now locals.now term.now }
{
    match term {
        Term::If { on, .. } => operand_is_bool(items, locals, on),
        Term::Case { on, variant, .. } => is_case(items, locals, on, *variant),
        Term::Math {
            to,
            left,
            right,
            ..
        } => { are_of_one_kind(items, locals, left, right) && is_of_kind(items, locals, left, to) }
        Term::Negate { to, of, .. } => {
            is_signed(items, locals, of) && is_of_kind(items, locals, of, to)
        }
        Term::Bounds { index, .. } => operand_is_kind(items, locals, IntKind::Usize, index),
        Term::Call { to, body, args, .. } => calls_body(items, locals, to, *body, args.as_slice()),
        Term::Virtual {
            to,
            trait_no,
            method,
            args,
            ..
        } => calls_method(items, locals, to, *trait_no, *method, args.as_slice()),
        Term::Ask { to, .. } => is_kind(IntKind::I32, ty_of_place(items, locals, to)),
        Term::Panic { why, .. } => is_started(*why),
        Term::Goto(_) | Term::DropAt { .. } | Term::Return | Term::Resume => true,
    }
}

/// Whether what is stored into is of no `dyn` type.
fn stores_sized(items: &Items, locals: &[TyId], stored: Option<&Place>) -> bool
    ensures { result ≡ list_all (is_sized items.now locals.now) (listed (option_copied stored.entry)) }
{
    match stored {
        Some(place) => !is_dyn(ty_of_place(items, locals, place)),
        None => true,
    }
}

fn constant_fits(operand: &Operand) -> bool
    ensures { result ≡ constant_inside operand.now }
{
    match operand {
        Operand::Number(value, kind) => least(*kind) <= *value && *value <= greatest(*kind),
        _ => true,
    }
}

fn operand_stands(items: &Items, locals: &[TyId], operand: &Operand) -> bool
    ensures { result ≡ operand_may_stand items.now locals.now operand.now }
{
    !operand_is_dyn(items, locals, operand) && constant_fits(operand)
}

fn all_stand(items: &Items, locals: &[TyId], operands: &[Operand]) -> bool
    ensures { result ≡ list_all (operand_may_stand items.now locals.now) operands.now }
{
    operands
        .iter()
        .all(|operand| operand_stands(items, locals, operand))
}

#[tactic(auto, using(crate::proofs::AskedOfLines::two_parts))]
fn stmt_operands_stand(items: &Items, locals: &[TyId], stmt: &Stmt) -> bool
    ensures { result ≡ list_all (operand_may_stand items.now locals.now) (operands_of_stmt stmt.now) }
{
    let (first, more) = operands_of(stmt);
    all_stand(items, locals, first) && all_stand(items, locals, more)
}

#[tactic(auto, using(crate::proofs::AskedOfLines::two_parts))]
fn term_operands_stand(items: &Items, locals: &[TyId], term: &Term) -> bool
    ensures { result ≡ list_all (operand_may_stand items.now locals.now) (operands_of_term term.now) }
{
    let (first, more) = operands_of_end(term);
    all_stand(items, locals, first) && all_stand(items, locals, more)
}

/// Whether a statement has its types.
pub fn is_typed_stmt(items: &Items, locals: &[TyId], stmt: &Stmt) -> bool
    ensures { result ≡ stmt_typed items.now locals.now stmt.now }
{
    stmt_passes(PlaceTest::IsTyped, items, locals, stmt)
        && stores_sized(items, locals, stored_of(stmt))
        && stmt_operands_stand(items, locals, stmt)
        && stmt_has_types(items, locals, stmt)
}

/// Whether a terminator has its types.
pub fn is_typed_term(items: &Items, locals: &[TyId], term: &Term) -> bool
    ensures { result ≡ term_typed items.now locals.now term.now }
{
    term_passes(PlaceTest::IsTyped, items, locals, term)
        && stores_sized(items, locals, stored_of_end(term))
        && term_operands_stand(items, locals, term)
        && term_has_types(items, locals, term)
}
