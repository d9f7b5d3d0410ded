ghost use Rattle.std.specs.Prelude.{◌≡◌, ◌++◌, OnOk, codes};
ghost use Rattle.std.specs.String.{string_bytes};
ghost use Rattle.std.specs.Fmt.{decimal};
ghost use Rattle.mir_ty.specs.Named.{adt_name};
ghost use Rattle.mir_base.specs.Lines.{why_word};
ghost use Rattle.listing_write.specs.Parts.{borrow_text, comparison_text, math_text, operand_text, operands_text, place_text, stmt_text, term_text, unwind_text, ways_text};
ghost use Rattle.listing_write.specs.Types.{trait_name};

use crate::parts::{put_operand, put_operands, put_place, put_ways};
use crate::words::{
    put, put_number, put_unwind, word_of_borrow, word_of_comparison, word_of_math, word_of_why,
};
use cfg_graph::{Operand, Place, Stmt, Term, Unwind};
use mir_base::{Cmp, Math, Why};
use mir_ty::Items;
use std::alloc::AllocError;

/// The name of a struct or an enum; nothing where there is none with this number.
pub fn put_adt_name(out: &mut String, items: &Items, n: u32) -> Result<(), AllocError>
    ensures { OnOk result (string_bytes out.new ≡ string_bytes out.old ++ adt_name items.now n) }
{
    match items.adt(n) {
        Some(adt) => put(out, adt.name.as_str()),
        None => Ok(()),
    }
}

/// The name of a trait; nothing where there is none with this number.
pub fn put_trait_name(out: &mut String, items: &Items, n: u32) -> Result<(), AllocError>
    ensures { OnOk result (string_bytes out.new ≡ string_bytes out.old ++ trait_name items.now n) }
{
    match items.trait_def(n) {
        Some(def) => put(out, def.name.as_str()),
        None => Ok(()),
    }
}

/// A place and what is stored into it.
fn put_to(out: &mut String, to: &Place, word: &str) -> Result<(), AllocError>
    ensures { OnOk result (string_bytes out.new ≡ string_bytes out.old ++ (place_text to.now ++ word.now)) }
{
    put_place(out, to)?;
    put(out, word)
}

/// Two operands, each behind a blank.
fn put_two(out: &mut String, left: &Operand, right: &Operand) -> Result<(), AllocError>
    ensures { OnOk result (string_bytes out.new ≡ string_bytes out.old ++ (codes " " ++ operand_text left.now ++ codes " " ++ operand_text right.now)) }
{
    put(out, " ")?;
    put_operand(out, left)?;
    put(out, " ")?;
    put_operand(out, right)
}

/// A number behind a blank.
fn put_blank_number(out: &mut String, n: u32) -> Result<(), AllocError>
    ensures { OnOk result (string_bytes out.new ≡ string_bytes out.old ++ (codes " " ++ decimal n)) }
{
    put(out, " ")?;
    put_number(out, n)
}

/// A place, a word and an operand.
fn put_from(out: &mut String, to: &Place, word: &str, from: &Operand) -> Result<(), AllocError>
    ensures { OnOk result (string_bytes out.new ≡ string_bytes out.old ++ (place_text to.now ++ word.now ++ operand_text from.now)) }
{
    put_to(out, to, word)?;
    put_operand(out, from)
}

/// A place, a word and what a tuple or an array is made of.
fn put_parts(out: &mut String, to: &Place, word: &str, parts: &[Operand]) -> Result<(), AllocError>
    ensures { OnOk result (string_bytes out.new ≡ string_bytes out.old ++ (place_text to.now ++ word.now ++ operands_text parts.now)) }
{
    put_to(out, to, word)?;
    put_operands(out, parts)
}

/// A word and an operand.
fn put_on(out: &mut String, word: &str, operand: &Operand) -> Result<(), AllocError>
    ensures { OnOk result (string_bytes out.new ≡ string_bytes out.old ++ (word.now ++ operand_text operand.now)) }
{
    put(out, word)?;
    put_operand(out, operand)
}

/// A word and a place.
fn put_at(out: &mut String, word: &str, place: &Place) -> Result<(), AllocError>
    ensures { OnOk result (string_bytes out.new ≡ string_bytes out.old ++ (word.now ++ place_text place.now)) }
{
    put(out, word)?;
    put_place(out, place)
}

/// A comparison of two operands.
fn put_comparison(
    out: &mut String,
    to: &Place,
    op: Cmp,
    left: &Operand,
    right: &Operand,
) -> Result<(), AllocError>
    ensures { OnOk result (string_bytes out.new ≡ string_bytes out.old ++ (place_text to.now ++ codes " = " ++ comparison_text op ++ codes " " ++ operand_text left.now ++ codes " " ++ operand_text right.now)) }
{
    put_to(out, to, " = ")?;
    put(out, word_of_comparison(op))?;
    put_two(out, left, right)
}

/// A value of a struct or an enum.
fn put_make(
    out: &mut String,
    items: &Items,
    to: &Place,
    adt: u32,
    variant: u32,
    parts: &[Operand],
) -> Result<(), AllocError>
    ensures { OnOk result (string_bytes out.new ≡ string_bytes out.old ++ (place_text to.now ++ codes " = make " ++ adt_name items.now adt ++ codes " " ++ decimal variant ++ codes " " ++ operands_text parts.now)) }
{
    put_to(out, to, " = make ")?;
    put_adt_name(out, items, adt)?;
    put_blank_number(out, variant)?;
    put(out, " ")?;
    put_operands(out, parts)
}

/// A closure.
fn put_close(
    out: &mut String,
    to: &Place,
    closure: u32,
    parts: &[Operand],
) -> Result<(), AllocError>
    ensures { OnOk result (string_bytes out.new ≡ string_bytes out.old ++ (place_text to.now ++ codes " = close " ++ decimal closure ++ codes " " ++ operands_text parts.now)) }
{
    put_to(out, to, " = close ")?;
    put_number(out, closure)?;
    put(out, " ")?;
    put_operands(out, parts)
}

/// A box that becomes one of a trait object.
fn put_unsize(
    out: &mut String,
    items: &Items,
    to: &Place,
    trait_no: u32,
    from: &Operand,
) -> Result<(), AllocError>
    ensures { OnOk result (string_bytes out.new ≡ string_bytes out.old ++ (place_text to.now ++ codes " = unsize " ++ trait_name items.now trait_no ++ codes " " ++ operand_text from.now)) }
{
    put_to(out, to, " = unsize ")?;
    put_trait_name(out, items, trait_no)?;
    put(out, " ")?;
    put_operand(out, from)
}

/// A borrow.
fn put_borrow(out: &mut String, to: &Place, unique: bool, of: &Place) -> Result<(), AllocError>
    ensures { OnOk result (string_bytes out.new ≡ string_bytes out.old ++ (place_text to.now ++ borrow_text unique ++ place_text of.now)) }
{
    put_to(out, to, word_of_borrow(unique))?;
    put_place(out, of)
}

pub fn put_stmt(out: &mut String, items: &Items, stmt: &Stmt) -> Result<(), AllocError>
    ensures { OnOk result (string_bytes out.new ≡ string_bytes out.old ++ stmt_text items.now stmt.now) }
{
    match stmt {
        Stmt::Put(to, from) => put_from(out, to, " = ", from),
        Stmt::Compare(to, op, left, right) => put_comparison(out, to, *op, left, right),
        Stmt::Not(to, operand) => put_from(out, to, " = not ", operand),
        Stmt::Tuple(to, parts) => put_parts(out, to, " = tuple ", parts.as_slice()),
        Stmt::Array(to, parts) => put_parts(out, to, " = array ", parts.as_slice()),
        Stmt::Make {
            to,
            adt,
            variant,
            parts,
        } => put_make(out, items, to, *adt, *variant, parts.as_slice()),
        Stmt::Close { to, closure, parts } => put_close(out, to, *closure, parts.as_slice()),
        Stmt::NewBox(to, operand) => put_from(out, to, " = box ", operand),
        Stmt::Unsize { to, trait_no, from } => put_unsize(out, items, to, *trait_no, from),
        Stmt::Borrow { to, unique, of } => put_borrow(out, to, *unique, of),
        Stmt::Touch(place) => put_at(out, "touch ", place),
        Stmt::Print(operand) => put_on(out, "print ", operand),
        Stmt::Forget(operand) => put_on(out, "forget ", operand),
        Stmt::Free(place) => put_at(out, "free ", place),
    }
}

/// A branch on an operand.
fn put_if(out: &mut String, on: &Operand, yes: u32, no: u32) -> Result<(), AllocError>
    ensures { OnOk result (string_bytes out.new ≡ string_bytes out.old ++ (codes "if " ++ operand_text on.now ++ codes " " ++ decimal yes ++ codes " " ++ decimal no)) }
{
    put_on(out, "if ", on)?;
    put_blank_number(out, yes)?;
    put_blank_number(out, no)
}

/// A branch on a variant.
fn put_case(out: &mut String, on: &Place, variant: u32, yes: u32, no: u32) -> Result<(), AllocError>
    ensures { OnOk result (string_bytes out.new ≡ string_bytes out.old ++ (codes "case " ++ place_text on.now ++ codes " " ++ decimal variant ++ codes " " ++ decimal yes ++ codes " " ++ decimal no)) }
{
    put_at(out, "case ", on)?;
    put_blank_number(out, variant)?;
    put_blank_number(out, yes)?;
    put_blank_number(out, no)
}

/// Arithmetic.
fn put_math(
    out: &mut String,
    to: &Place,
    op: Math,
    left: &Operand,
    right: &Operand,
    then: u32,
    unwind: Unwind,
) -> Result<(), AllocError>
    ensures { OnOk result (string_bytes out.new ≡ string_bytes out.old ++ (place_text to.now ++ codes " = " ++ math_text op ++ codes " " ++ operand_text left.now ++ codes " " ++ operand_text right.now ++ ways_text then unwind)) }
{
    put_to(out, to, " = ")?;
    put(out, word_of_math(op))?;
    put_two(out, left, right)?;
    put_ways(out, then, unwind)
}

/// A test of an index.
fn put_bounds(
    out: &mut String,
    index: &Operand,
    length: u32,
    then: u32,
    unwind: Unwind,
) -> Result<(), AllocError>
    ensures { OnOk result (string_bytes out.new ≡ string_bytes out.old ++ (codes "bounds " ++ operand_text index.now ++ codes " " ++ decimal length ++ ways_text then unwind)) }
{
    put_on(out, "bounds ", index)?;
    put_blank_number(out, length)?;
    put_ways(out, then, unwind)
}

/// The arguments of a call behind a blank, and its ways on.
fn put_args(out: &mut String, args: &[Operand], then: u32, unwind: Unwind) -> Result<(), AllocError>
    ensures { OnOk result (string_bytes out.new ≡ string_bytes out.old ++ (codes " " ++ operands_text args.now ++ ways_text then unwind)) }
{
    put(out, " ")?;
    put_operands(out, args)?;
    put_ways(out, then, unwind)
}

/// A call.
fn put_call(
    out: &mut String,
    to: &Place,
    body: u32,
    args: &[Operand],
    then: u32,
    unwind: Unwind,
) -> Result<(), AllocError>
    ensures { OnOk result (string_bytes out.new ≡ string_bytes out.old ++ (place_text to.now ++ codes " = call " ++ decimal body ++ codes " " ++ operands_text args.now ++ ways_text then unwind)) }
{
    put_to(out, to, " = call ")?;
    put_number(out, body)?;
    put_args(out, args, then, unwind)
}

/// A place, and a method of a trait.
fn put_method(
    out: &mut String,
    items: &Items,
    to: &Place,
    trait_no: u32,
    method: u32,
) -> Result<(), AllocError>
    ensures { OnOk result (string_bytes out.new ≡ string_bytes out.old ++ (place_text to.now ++ codes " = virtual " ++ trait_name items.now trait_no ++ codes " " ++ decimal method)) }
{
    put_to(out, to, " = virtual ")?;
    put_trait_name(out, items, trait_no)?;
    put_blank_number(out, method)
}

/// A panic.
fn put_panic(out: &mut String, why: Why, unwind: Unwind) -> Result<(), AllocError>
    ensures { OnOk result (string_bytes out.new ≡ string_bytes out.old ++ (codes "panic " ++ why_word why ++ codes " unwind " ++ unwind_text unwind)) }
{
    put(out, "panic ")?;
    put(out, word_of_why(why))?;
    put(out, " unwind ")?;
    put_unwind(out, unwind)
}

pub fn put_term(out: &mut String, items: &Items, term: &Term) -> Result<(), AllocError>
    ensures { OnOk result (string_bytes out.new ≡ string_bytes out.old ++ term_text items.now term.now) }
{
    match term {
        Term::Goto(block) => {
            put(out, "goto")?;
            put_blank_number(out, *block)
        }
        Term::If { on, yes, no } => put_if(out, on, *yes, *no),
        Term::Case {
            on,
            variant,
            yes,
            no,
        } => put_case(out, on, *variant, *yes, *no),
        Term::Math {
            to,
            op,
            left,
            right,
            then,
            unwind,
        } => put_math(out, to, *op, left, right, *then, *unwind),
        Term::Negate {
            to,
            of,
            then,
            unwind,
        } => {
            put_from(out, to, " = neg ", of)?;
            put_ways(out, *then, *unwind)
        }
        Term::Bounds {
            index,
            length,
            then,
            unwind,
        } => put_bounds(out, index, *length, *then, *unwind),
        Term::Call {
            to,
            body,
            args,
            then,
            unwind,
        } => put_call(out, to, *body, args.as_slice(), *then, *unwind),
        Term::Virtual {
            to,
            trait_no,
            method,
            args,
            then,
            unwind,
        } => {
            put_method(out, items, to, *trait_no, *method)?;
            put_args(out, args.as_slice(), *then, *unwind)
        }
        Term::Ask { to, then, unwind } => {
            put_to(out, to, " = ask")?;
            put_ways(out, *then, *unwind)
        }
        Term::DropAt {
            place,
            then,
            unwind,
        } => {
            put_at(out, "drop ", place)?;
            put_ways(out, *then, *unwind)
        }
        Term::Panic { why, unwind } => put_panic(out, *why, *unwind),
        Term::Return => put(out, "return"),
        Term::Resume => put(out, "resume"),
    }
}
