ghost use Rattle.std.specs.Prelude.{◌≡◌, true, false, option_map, if◌then◌else◌};
ghost use Rattle.src_ast.specs.ItemForms.{function_of, item_of, kind_seen, with_block_of, without_block_of};
ghost use Rattle.src_ast.specs.Seen.{made_of, are_idents, nodes_of, syn_of};
ghost use Rattle.src_ast.specs.Syntax.{FnItem, just, nothing, shape_of};
ghost use Rattle.src_ast.specs.View.{behind_params, behind_word, but_last, idents, impl_row, kind_of, last_of, made, named, tokens_in, views};
ghost use Rattle.src_tree.specs.View.{parts_in};
ghost use Rattle.src_tree.specs.declared.row.GrammarRow.{GrammarRow};
ghost use Rattle.src_ast.specs.Sorts.{item_part};

use crate::nodes::{First, Last, LeadingNames, Nodes};
use crate::tokens::has;
use src_token::{Mark, Token, Word};
use src_tree::{GrammarRow, NodePiece, SyntaxNode, TokenKind, is};

/// How the parts of a struct or of a variant are written.
#[derive(Clone, Copy)]
pub enum FieldKind {
    /// There are none.
    Unit,
    /// As a list of types.
    Tuple,
    /// By their names.
    Named,
}

/// A function, a method, or the head of a trait's method, which has no block.
#[derive(Clone, Copy)]
pub struct Function<'a> {
    pub name: &'a SyntaxNode,
    pub params: Nodes<'a>,
    /// The type behind the arrow.
    pub answer: Option<&'a SyntaxNode>,
    pub block: Option<&'a SyntaxNode>,
}

/// An item, a method, or the head of a trait's method (The Rust Reference, "Items").
#[derive(Clone, Copy)]
pub enum ItemForm<'a> {
    Struct {
        /// The names that it derives.
        derives: Nodes<'a>,
        name: &'a SyntaxNode,
        kind: FieldKind,
        /// Types, or fields with names.
        fields: Nodes<'a>,
    },
    Enum {
        derives: Nodes<'a>,
        name: &'a SyntaxNode,
        variants: Nodes<'a>,
    },
    Trait {
        name: &'a SyntaxNode,
        heads: Nodes<'a>,
    },
    Impl {
        trait_: Option<&'a SyntaxNode>,
        name: &'a SyntaxNode,
        methods: Nodes<'a>,
    },
    Fn(Function<'a>),
    /// No item.
    Other,
}

/// How parts are written, by the tokens around them.
pub fn field_kind(pieces: &[NodePiece]) -> FieldKind
    ensures { kind_seen result ≡ kind_of (tokens_in (parts_in pieces.now)) }
{
    if has(TokenKind::Mark(Mark::OpenBrace), pieces) {
        FieldKind::Named
    } else if has(TokenKind::Mark(Mark::OpenParenthesis), pieces) {
        FieldKind::Tuple
    } else {
        FieldKind::Unit
    }
}

fn trait_item(pieces: &[NodePiece]) -> ItemForm<'_>
    ensures { item_of result ≡ item_part (made_of GrammarRow.Trait pieces.now) }
{
    match Nodes::among(pieces).split_first() {
        Some(First { first, rest }) => ItemForm::Trait {
            name: first,
            heads: rest,
        },
        None => ItemForm::Other,
    }
}

#[tactic(auto, using(crate::proofs::LastNames::last_named))]
fn enum_item(pieces: &[NodePiece]) -> ItemForm<'_>
    ensures { item_of result ≡ item_part (made_of GrammarRow.Enum pieces.now) }
{
    let LeadingNames { names, others } = Nodes::among(pieces).split_names();
    match names.split_last() {
        Some(Last { earlier, last }) => ItemForm::Enum {
            derives: earlier,
            name: last,
            variants: others,
        },
        None => ItemForm::Other,
    }
}

/// The parts behind the first token that is a word; none where there is no such token.
fn behind(word: Word, pieces: &[NodePiece]) -> &[NodePiece]
    ensures { tokens_in (parts_in result.now) ≡ behind_word word (tokens_in (parts_in pieces.now)) }
{
    for (i, piece) in pieces.iter().enumerate() {
        if let NodePiece::Token(token) = piece
            && is(TokenKind::Word(word), token)
        {
            return &pieces[i + 1..];
        }
    }
    &[]
}

#[tactic(auto, using(crate::proofs::LastNames::last_named))]
fn struct_item(pieces: &[NodePiece]) -> ItemForm<'_>
    ensures { item_of result ≡ item_part (made_of GrammarRow.Struct pieces.now) }
{
    let LeadingNames { names, others } = Nodes::among(pieces).split_names();
    match names.split_last() {
        Some(Last { earlier, last }) => ItemForm::Struct {
            derives: earlier,
            name: last,
            kind: field_kind(behind(Word::Struct, pieces)),
            fields: others,
        },
        None => ItemForm::Other,
    }
}

/// What stands behind the name of a function that has a block.
fn with_block<'a>(has_answer: bool, name: &'a SyntaxNode, behind: Nodes<'a>) -> Option<Function<'a>>
    ensures { option_map function_of result
        ≡ item_part (with_block_of has_answer (named (syn_of name.now)) (nodes_of behind.entry)) }
{
    let block = behind.last()?;
    let others = behind.but_last();
    Some(if has_answer {
        Function {
            name,
            params: others.but_last(),
            answer: others.last(),
            block: Some(block),
        }
    } else {
        Function {
            name,
            params: others,
            answer: None,
            block: Some(block),
        }
    })
}

fn without_block<'a>(has_answer: bool, name: &'a SyntaxNode, behind: Nodes<'a>) -> Function<'a>
    ensures { function_of result ≡ without_block_of has_answer (named (syn_of name.now)) (nodes_of behind.entry) }
{
    if has_answer {
        Function {
            name,
            params: behind.but_last(),
            answer: behind.last(),
            block: None,
        }
    } else {
        Function {
            name,
            params: behind,
            answer: None,
            block: None,
        }
    }
}

/// `impl` with `for`: the names are those of the trait and of the type.
#[tactic(auto, using(crate::proofs::Impls::no_names, crate::proofs::Impls::only_one, crate::proofs::Impls::two_names, crate::proofs::Impls::three_names))]
fn trait_impl<'a>(names: Nodes<'a>, methods: Nodes<'a>) -> ItemForm<'a>
    requires { are_idents (nodes_of names) ≡ true }
    ensures { item_of result ≡ item_part (impl_row true (idents (nodes_of names.entry)) (nodes_of methods.entry)) }
{
    let Some(First { first, rest }) = names.split_first() else {
        return ItemForm::Other;
    };
    let Some(second) = rest.split_first() else {
        return ItemForm::Other;
    };
    if second.rest.is_empty() {
        ItemForm::Impl {
            trait_: Some(first),
            name: second.first,
            methods,
        }
    } else {
        ItemForm::Other
    }
}

/// `impl` without `for`: the name is that of the type.
#[tactic(auto, using(crate::proofs::Impls::no_names, crate::proofs::Impls::one_name, crate::proofs::Impls::more_names))]
fn own_impl<'a>(names: Nodes<'a>, methods: Nodes<'a>) -> ItemForm<'a>
    requires { are_idents (nodes_of names) ≡ true }
    ensures { item_of result ≡ item_part (impl_row false (idents (nodes_of names.entry)) (nodes_of methods.entry)) }
{
    match names.split_first() {
        Some(First { first, rest }) => {
            if rest.is_empty() {
                ItemForm::Impl {
                    trait_: None,
                    name: first,
                    methods,
                }
            } else {
                ItemForm::Other
            }
        }
        None => ItemForm::Other,
    }
}

fn impl_item(pieces: &[NodePiece]) -> ItemForm<'_>
    ensures { item_of result ≡ item_part (made_of GrammarRow.Impl pieces.now) }
{
    let LeadingNames { names, others } = Nodes::among(pieces).split_names();
    if has(TokenKind::Word(Word::For), pieces) {
        trait_impl(names, others)
    } else {
        own_impl(names, others)
    }
}

fn fn_item(pieces: &[NodePiece]) -> ItemForm<'_>
    ensures { item_of result ≡ item_part (made_of GrammarRow.Fn pieces.now) }
{
    let has_answer = has(TokenKind::Mark(Mark::RArrow), pieces);
    let Some(First { first, rest }) = Nodes::among(pieces).split_first() else {
        return ItemForm::Other;
    };
    match with_block(has_answer, first, rest) {
        Some(function) => ItemForm::Fn(function),
        None => ItemForm::Other,
    }
}

fn head_item(pieces: &[NodePiece]) -> ItemForm<'_>
    ensures { item_of result ≡ item_part (made_of GrammarRow.Head pieces.now) }
{
    let has_answer = has(TokenKind::Mark(Mark::RArrow), pieces);
    match Nodes::among(pieces).split_first() {
        Some(First { first, rest }) => ItemForm::Fn(without_block(has_answer, first, rest)),
        None => ItemForm::Other,
    }
}

/// A node as an item, a method or the head of a trait's method; `ItemForm::Other` where it is none.
#[tactic(auto, using(crate::proofs::Named::no_item_seen, crate::proofs::Named::seen_as))]
pub fn item_form(node: &SyntaxNode) -> ItemForm<'_>
    ensures { item_of result ≡ item_part (shape_of (syn_of node.now)) }
{
    let pieces = node.parts.as_slice();
    match node.row {
        GrammarRow::Struct => struct_item(pieces),
        GrammarRow::Enum => enum_item(pieces),
        GrammarRow::Trait => trait_item(pieces),
        GrammarRow::Impl => impl_item(pieces),
        GrammarRow::Fn | GrammarRow::Method => fn_item(pieces),
        GrammarRow::Head => head_item(pieces),
        _ => ItemForm::Other,
    }
}
