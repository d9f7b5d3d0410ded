//! References that are passed together: two that overlap are refused where one of them is `&mut`, and so is an access
//! that one before it does not allow.
ghost use Rattle.std.specs.Prelude.{◌≡◌, ◌++◌, IfOk, OnOk, map, drop};
ghost use Rattle.std.specs.List.{filter_map};
ghost use Rattle.typed_tree.specs.View.{form_of};
ghost use Rattle.typing_rules.specs.Accesses as rules;
ghost use Rattle.typing_rules.specs.Accesses.{◌⊕◌};
ghost use Rattle.borrow_rules.specs.AccessView.{accessed_in, aliases_in, argument_in, place_if_any, referring_if_any, referring_in, told_in};

use crate::access::changes;
use crate::place::{overlap_if_any, place_of};
use crate::{AccessPlace, Accessed, Alias, CollectedAccesses};
use mir_base::{List, NoMemory, Pos};
use std::alloc::Global;
use typed_tree::Form;

/// What a reference argument names: a place or a temporary.
#[derive(Drop)]
pub struct Referring {
    pub place: Option<AccessPlace>,
    pub is_unique: bool,
}

/// An argument, and what is told of it by itself.
#[derive(Drop)]
pub struct Argument {
    pub refers: Option<Referring>,
    pub is_receiver: bool,
    pub at: Pos,
    pub told: CollectedAccesses,
}

/// What an argument of this form refers to, if it is a borrow.
pub fn refers_by(
    alloc: Global,
    aliases: &[Alias],
    form: &Form,
) -> Result<Option<Referring>, NoMemory>
    ensures { IfOk result (λ r. referring_if_any r ≡ rules.refers_by (aliases_in aliases.now) (form_of form.now)) }
{
    match form {
        Form::Borrow { unique, base } => {
            let place = place_of(alloc, aliases, base)?;
            Ok(Some(Referring {
                place,
                is_unique: *unique,
            }))
        }
        _ => Ok(None),
    }
}

/// Whether two references overlap, of which one is `&mut`.
fn overlap_together(r: &Referring, other: &Option<Referring>) -> bool
    ensures { result ≡ rules.overlap_together (referring_in r.now) (referring_if_any other.now) }
{
    match other {
        Some(s) => (r.is_unique || s.is_unique) && overlap_if_any(&r.place, &s.place),
        None => false,
    }
}

/// Whether a reference before an access does not allow it.
fn is_against(allows_none: bool, place: &Option<AccessPlace>, accessed: &Accessed) -> bool
    ensures { result ≡ rules.is_against allows_none (place_if_any place.now) (accessed_in accessed.now) }
{
    (allows_none || changes(accessed.access)) && overlap_if_any(place, &accessed.place)
}

/// The accesses that a reference before them does not allow.
fn against(
    allows_none: bool,
    place: &Option<AccessPlace>,
    accesses: &[Accessed],
    conflicts: &mut Vec<Pos>,
) -> Result<(), NoMemory>
    ensures { OnOk result (conflicts.new.items ≡ conflicts.old.items ++
        filter_map (rules.against allows_none (place_if_any place.now)) (map accessed_in accesses.now)) }
{
    for accessed in accesses {
        if is_against(allows_none, place, accessed) {
            conflicts.push(accessed.at)?;
        }
    }
    Ok(())
}

/// What a reference does not allow of one argument behind it.
fn against_one(
    is_receiver: bool,
    r: &Referring,
    later: &Argument,
    conflicts: &mut Vec<Pos>,
) -> Result<(), NoMemory>
    ensures { OnOk result (conflicts.new.items ≡ conflicts.old.items ++
        rules.against_one is_receiver (referring_in r.now) (argument_in later.now)) }
{
    if overlap_together(r, &later.refers) {
        conflicts.push(later.at)?;
    }
    let allows_none = r.is_unique && !is_receiver;
    against(
        allows_none,
        &r.place,
        later.told.accesses.as_slice(),
        conflicts,
    )
}

/// What an argument does not allow of those behind it.
fn against_all(
    argument: &Argument,
    later: &[Argument],
    conflicts: &mut Vec<Pos>,
) -> Result<(), NoMemory>
    ensures { OnOk result (conflicts.new.items ≡ conflicts.old.items ++
        rules.against_all argument.now.is_receiver (referring_if_any argument.now.refers) (map argument_in later.now)) }
{
    let Some(r) = &argument.refers else {
        return Ok(());
    };
    for one in later {
        against_one(argument.is_receiver, r, one, conflicts)?;
    }
    Ok(())
}

/// Where arguments conflict with one another.
fn conflicts_among(alloc: Global, args: &[Argument]) -> Result<Vec<Pos>, NoMemory>
    ensures { IfOk result (λ conflicts. conflicts.items ≡ rules.conflicts_among (map argument_in args.now)) }
{
    let mut conflicts = Vec::new(alloc);
    for (n, argument) in args.iter().enumerate() {
        against_all(argument, &args[n + 1..], &mut conflicts)?;
    }
    Ok(conflicts)
}

/// What is told of arguments by themselves.
fn append_all(args: List<Argument>, out: &mut CollectedAccesses) -> Result<(), NoMemory>
    ensures { OnOk result (told_in out.new ≡ told_in out.old ⊕ rules.all_told (map argument_in args)) }
{
    for argument in args {
        out.append(argument.told)?;
    }
    Ok(())
}

/// What is told of arguments that are passed together.
pub fn passed_together(
    alloc: Global,
    args: List<Argument>,
    out: &mut CollectedAccesses,
) -> Result<(), NoMemory>
    ensures { OnOk result (told_in out.new ≡ told_in out.old ⊕ rules.passed_together (map argument_in args)) }
{
    let conflicts = conflicts_among(alloc, args.as_slice())?;
    append_all(args, out)?;
    out.append_conflicts(conflicts)
}
