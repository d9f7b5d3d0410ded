//! What is wrong with a text that is refused, in a sentence.
ghost use Rattle.std.specs.Prelude.{◌≡◌};
ghost use Rattle.look_program.specs.Sentences as sentences;

use mir_base::Rule;
use mir_pipeline::Refusal;
use mir_text::ListingError;

fn of_bytes(code: u8) -> &'static str
    ensures { result.now ≡ sentences.of_bytes code }
{
    match code {
        1 => "the character begins no token",
        2 => "the number is above 18446744073709551615, or its suffix is no integer type",
        3 => "the comment has no end",
        4 => "the text between quotes has no end",
        _ => "the bytes are not UTF-8",
    }
}

fn of_rule(rule: Rule) -> &'static str
    ensures { result.now ≡ sentences.of_rule rule }
{
    match rule {
        Rule::T01 => "the name means nothing here, or there is no `main`",
        Rule::T02 => {
            "two things of one kind have one name, or one has the name of something built in"
        }
        Rule::T03 => "the type is not the one that is expected here",
        Rule::T04 => "there are too few or too many arguments, fields or parts",
        Rule::T05 => "what is assigned to is no variable, field, element or `*e`",
        Rule::T06 => "the jump leaves no loop of its body, or carries a value out of a `while`",
        Rule::T07 => "what is not Copy is moved out of where it must stay",
        Rule::T08 => "a reference stands where none may, or what `&` names is changed through it",
        Rule::T09 => "the type holds itself without a box, so it has no size",
        Rule::T10 => {
            "`Copy` is derived without `Clone`, beside a `Drop` impl, or with a part that is not Copy"
        }
        Rule::T11 => {
            "the impl does not have exactly the methods of its trait, or it is the second for its type"
        }
        Rule::T12 => "the type has no field or method of that name",
        Rule::T13 => "this cannot be called, or a function stands as a value",
        Rule::T14 => "two places overlap of which one is borrowed by `&mut` or changed meanwhile",
        Rule::T15 => "a `Drop` body replaces its `self`, so it would never end",
        Rule::T16 => "nothing tells the type",
        Rule::T17 => "the number is outside its type",
        Rule::T18 => "the pattern cannot stand here",
        Rule::T19 => {
            "more than 2048 nodes in a body, 32 fields, 64 variants, 32 elements or 12 parts of a tuple"
        }
        Rule::T20 => "this form is not in the language yet",
    }
}

/// What is wrong with a text that is refused so.
pub fn of_refusal(refusal: &Refusal) -> &'static str
    ensures { result.now ≡ sentences.of_refusal refusal.now }
{
    match refusal {
        Refusal::Lex { code, .. } => of_bytes(*code),
        Refusal::Syntax { .. } => {
            "a program can begin with the text before this place, but not go on so"
        }
        Refusal::TooDeep { .. } => {
            "brackets, operators, blocks or types stand in one another more than 64 levels deep"
        }
        Refusal::Broken { rule, .. } => of_rule(*rule),
        Refusal::U1 { .. } => "this place, or a part of it, is gone here by the choices above",
        Refusal::U2 { .. } => "what this place is a part of is gone here by the choices above",
        Refusal::Memory => "",
    }
}

fn of_fault(number: u8) -> &'static str
    ensures { result.now ≡ sentences.of_fault number }
{
    match number {
        1 => "a block, body, type or other item does not exist, or `main` does not",
        2 => "a local does not exist",
        3 => "something does not have its type",
        4 => "an edge to a block that is no turn block does not lower the rank",
        5 => "a cleanup block is entered otherwise than by unwinding, or leaves by something else",
        6 => "a box is coerced to a trait of which its content's type has no impl",
        _ => "a name does not stand in a listing, or stands twice",
    }
}

/// What is wrong with a listing that is refused so.
pub fn of_error(error: ListingError) -> &'static str
    ensures { result.now ≡ sentences.of_error error }
{
    match error {
        ListingError::BadListing { .. } => "the line is not written exactly as `raw` writes it",
        ListingError::BadGraph { fault, .. } => of_fault(fault.number),
        ListingError::Memory => "",
    }
}
