//! Fields of structs and variants by their names.
ghost use Rattle.std.specs.Prelude.{◌≡◌, map, option_map, IfErr, IfOk};
ghost use Rattle.std.specs.List.{position as position_of};
ghost use Rattle.std.specs.Option.{option_copied};
ghost use Rattle.std.specs.Str.{bytes_eq};
ghost use Rattle.mir_base.specs.declared.rule.RuleError.{RuleError};
ghost use Rattle.src_ast.specs.Seen.{nodes_of, syn_of};
ghost use Rattle.src_ast.specs.Sorts.{field_pattern_part};
ghost use Rattle.src_ast.specs.Syntax.{shape_of};
ghost use Rattle.typeck_patterns.specs.Members.{field_in, names_at, names_in, part_by, part_named, part_of, parts_named, variant_of};

use crate::parts::variant_at;
use crate::targets::PatternTarget;
use mir_base::{List, RuleError};
use mir_ty::{Items, TyId};
use src_ast::{Nodes, field_pattern_form};
use src_tree::SyntaxNode;
use typeck_checker::Checker;
use typeck_env::AdtNames;
use typeck_heads::{NameTable, push_to};

/// A field by its number, and its type.
#[derive(Clone, Copy)]
pub struct FieldPart {
    pub number: u32,
    pub ty: TyId,
}

fn names_of(members: &List<AdtNames>, target: PatternTarget) -> Option<&NameTable>
    ensures { option_copied result ≡ names_at members.now target }
{
    members
        .get(target.adt as usize)?
        .fields
        .get(target.variant as usize)
}

fn field_number(members: &List<AdtNames>, target: PatternTarget, name: &str) -> Option<u32>
    ensures { result ≡ position_of (bytes_eq name.now) (names_in members.now target) }
{
    match names_of(members, target) {
        Some(names) => names.find(name),
        None => None,
    }
}

fn field_at(items: &Items, target: PatternTarget, number: u32) -> Option<FieldPart>
    ensures { option_map part_of result ≡ field_in (variant_of items.now target) number }
{
    match variant_at(items, target) {
        Some(variant) => {
            let ty = *variant.fields.get(number as usize)?;
            Some(FieldPart { number, ty })
        }
        None => None,
    }
}

fn field_named(checker: &Checker, target: PatternTarget, name: &str) -> Option<FieldPart>
    ensures { option_map part_of result ≡ part_by (variant_of checker.now.walk.items target) name.now }
{
    let number = field_number(&checker.tables.members, target, name)?;
    field_at(&checker.walk.items, target, number)
}

fn part_of_node(checker: &Checker, target: PatternTarget, node: &SyntaxNode) -> Option<FieldPart>
    ensures { option_map part_of result ≡ part_named (variant_of checker.now.walk.items target) (field_pattern_part (shape_of (syn_of node.now))) }
{
    match field_pattern_form(node) {
        Some(form) => field_named(checker, target, form.name),
        None => None,
    }
}

/// The fields of a struct or a variant that the patterns of fields name, `None` where there is none of a name.
pub fn field_parts(
    checker: &Checker,
    target: PatternTarget,
    fields: Nodes,
) -> Result<List<Option<FieldPart>>, RuleError>
    ensures named { IfOk result (λ parts. map (option_map part_of) parts ≡ parts_named (variant_of checker.now.walk.items target) (nodes_of fields.entry)) }
    ensures short { IfErr result (λ e. e ≡ RuleError.Memory) }
{
    let mut parts = List::new(checker.alloc);
    let mut rest = fields;
    while let Some(split) = rest.split_first() {
        push_to(&mut parts, part_of_node(checker, target, split.first))?;
        rest = split.rest;
    }
    Ok(parts)
}
