//! The nodes of a syntax tree by their forms: what a row of the grammar says, without the marks between its parts
//! (rust-analyzer has such a layer of typed nodes over its syntax trees).
#![tactic(auto)]

mod control;
mod expression;
mod item;
mod nodes;
mod operators;
mod part;
mod path;
mod pattern;
mod statement;
mod tokens;
mod ty;

pub use control::arm_form;
pub use expression::{ArmForm, ExpressionForm, InitForm, expression_form, init_form};
pub use item::{FieldKind, Function, ItemForm, field_kind, item_form};
pub use nodes::{First, Last, LeadingNames, Nodes, is_name};
pub use part::{FieldForm, ParamForm, Receiver, VariantForm, field_form, param_form, variant_form};
pub use path::PathForm;
pub use pattern::{FieldPatternForm, PatternForm, field_pattern_form, pattern_form};
pub use statement::{StatementForm, is_statement, statement_form};
pub use ty::{TypeForm, name_of, type_form};
