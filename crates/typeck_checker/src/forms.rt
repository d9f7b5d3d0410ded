//! Forms by their parts, which the nodes that were made last are.
ghost use Rattle.std.specs.Prelude.{◌≡◌};
ghost use Rattle.typed_tree.specs.View.{form_of, tree_of};
ghost use Rattle.typed_tree.specs.declared.node.Use.{Use};
ghost use Rattle.typing_rules.specs.Places.{used};
ghost use Rattle.typeck_checker.specs.Forms.{four_form, leaf_form, one_form, three_form, two_form};

use mir_base::{Cmp, Key, Math, NodeId};
use std::alloc::Global;
use typed_tree::{Form, Node, Use};

/// A form with one part.
#[derive(Clone, Copy)]
pub enum One {
    Field(u32),
    Deref,
    Not,
    Negate,
    NewBox,
    Print,
    DropValue,
    Forget,
    Borrow(bool),
    Unsize(u32),
    Let,
    Evaluate,
    Loop,
    Break(NodeId),
    Return,
}

/// A form with two parts, in the order in which they are made.
#[derive(Clone, Copy)]
pub enum TwoParts {
    /// The array, and its index.
    Index(u32),
    Arithmetic(Math),
    Comparison(Cmp),
    /// The right operand, and the left one.
    ArithmeticLast(Math),
    ComparisonLast(Cmp),
    And,
    Or,
    /// The place, which is used so, and the value.
    Assign,
    /// The condition, and the body.
    If,
    While,
    /// The initialiser, and the pattern.
    Let,
    /// The pattern, and the body.
    Arm,
}

/// A form with three parts, in the order in which they are made.
#[derive(Clone, Copy)]
pub enum Three {
    /// The condition, the body, and what is done otherwise.
    If,
    /// The scrutinee, the pattern, and the body.
    IfLet,
    WhileLet,
    /// The pattern, the guard, and the body.
    Arm,
}

/// A form with four parts, in the order in which they are made.
#[derive(Clone, Copy)]
pub enum Four {
    /// The scrutinee, the pattern, the body, and what is done otherwise.
    IfLet,
}

/// A form without parts.
#[derive(Clone, Copy)]
pub enum Leaf {
    Number(i128),
    Truth(bool),
    UnitValue,
    Variable(Key),
    Ask,
    Panic,
    Break(NodeId),
    Continue(NodeId),
    Return,
    Wildcard,
    NumberPattern(i128),
    TruthPattern(bool),
}

/// A form without parts.
pub fn form_of_leaf(leaf: Leaf) -> Form
    ensures { form_of result ≡ leaf_form leaf }
{
    match leaf {
        Leaf::Number(value) => Form::Number(value),
        Leaf::Truth(value) => Form::Truth(value),
        Leaf::UnitValue => Form::UnitValue,
        Leaf::Variable(key) => Form::Variable(key),
        Leaf::Ask => Form::Ask,
        Leaf::Panic => Form::Panic,
        Leaf::Break(from) => Form::Break { from, value: None },
        Leaf::Continue(from) => Form::Continue { from },
        Leaf::Return => Form::Return(None),
        Leaf::Wildcard => Form::Wildcard,
        Leaf::NumberPattern(value) => Form::NumberPattern(value),
        Leaf::TruthPattern(value) => Form::TruthPattern(value),
    }
}

/// A form with this part.
pub fn form_of_one(one: One, part: Box<Node, Global>) -> Form
    ensures { form_of result ≡ one_form one (tree_of part.value) }
{
    match one {
        One::Field(number) => Form::Field {
            base: part,
            part: number,
        },
        One::Deref => Form::Deref(part),
        One::Not => Form::Not(part),
        One::Negate => Form::Negate(part),
        One::NewBox => Form::NewBox(part),
        One::Print => Form::Print(part),
        One::DropValue => Form::DropValue(part),
        One::Forget => Form::Forget(part),
        One::Borrow(unique) => Form::Borrow { unique, base: part },
        One::Unsize(trait_no) => Form::Unsize {
            trait_no,
            operand: part,
        },
        One::Let => Form::Let {
            pattern: part,
            initialiser: None,
        },
        One::Evaluate => Form::Evaluate(part),
        One::Loop => Form::Loop(part),
        One::Break(from) => Form::Break {
            from,
            value: Some(part),
        },
        One::Return => Form::Return(Some(part)),
    }
}

#[tactic(auto, using(crate::proofs::Nodes::used_so))]
fn as_stored_place(mut place: Box<Node, Global>) -> Box<Node, Global>
    ensures { tree_of result.value ≡ used Use.Store (tree_of place.value) }
{
    place.by = Some(Use::Store);
    place
}

/// A form with these parts.
pub fn form_of_two(two: TwoParts, first: Box<Node, Global>, second: Box<Node, Global>) -> Form
    ensures { form_of result ≡ two_form two (tree_of first.value) (tree_of second.value) }
{
    match two {
        TwoParts::Index(length) => Form::Index {
            base: first,
            index: second,
            length,
        },
        TwoParts::Arithmetic(operator) => Form::Arithmetic {
            operator,
            left: first,
            right: second,
        },
        TwoParts::Comparison(operator) => Form::Comparison {
            operator,
            left: first,
            right: second,
        },
        TwoParts::ArithmeticLast(operator) => Form::Arithmetic {
            operator,
            left: second,
            right: first,
        },
        TwoParts::ComparisonLast(operator) => Form::Comparison {
            operator,
            left: second,
            right: first,
        },
        TwoParts::And => Form::And {
            left: first,
            right: second,
        },
        TwoParts::Or => Form::Or {
            left: first,
            right: second,
        },
        TwoParts::Assign => Form::Assign {
            place: as_stored_place(first),
            value: second,
        },
        TwoParts::If => Form::If {
            condition: first,
            then: second,
            otherwise: None,
        },
        TwoParts::While => Form::While {
            condition: first,
            body: second,
        },
        TwoParts::Let => Form::Let {
            pattern: second,
            initialiser: Some(first),
        },
        TwoParts::Arm => Form::Arm {
            pattern: first,
            guard: None,
            body: second,
        },
    }
}

/// A form with these parts.
pub fn form_of_three(
    three: Three,
    first: Box<Node, Global>,
    second: Box<Node, Global>,
    third: Box<Node, Global>,
) -> Form
    ensures { form_of result ≡ three_form three (tree_of first.value) (tree_of second.value) (tree_of third.value) }
{
    match three {
        Three::If => Form::If {
            condition: first,
            then: second,
            otherwise: Some(third),
        },
        Three::IfLet => Form::IfLet {
            pattern: second,
            scrutinee: first,
            then: third,
            otherwise: None,
        },
        Three::WhileLet => Form::WhileLet {
            pattern: second,
            scrutinee: first,
            body: third,
        },
        Three::Arm => Form::Arm {
            pattern: first,
            guard: Some(second),
            body: third,
        },
    }
}

/// A form with these parts.
pub fn form_of_four(
    four: Four,
    first: Box<Node, Global>,
    second: Box<Node, Global>,
    third: Box<Node, Global>,
    fourth: Box<Node, Global>,
) -> Form
    ensures { form_of result ≡ four_form four (tree_of first.value) (tree_of second.value) (tree_of third.value) (tree_of fourth.value) }
{
    match four {
        Four::IfLet => Form::IfLet {
            pattern: second,
            scrutinee: first,
            then: third,
            otherwise: Some(fourth),
        },
    }
}
