ghost use Rattle.std.specs.Prelude.{◌≡◌, true, MatchOption};
ghost use Rattle.src_ast.specs.Seen.{nodes_of, are_idents, syn_of, is_none, by_first, last_node, maybe_of};
ghost use Rattle.src_tree.specs.View.{layout_of, parts_in};
ghost use Rattle.src_ast.specs.Syntax.{no_syn};
ghost use Rattle.src_ast.specs.View.{views, is_ident, idents, behind_idents, first_of, rest_of, last_of, but_last};

use src_tree::{GrammarRow, NodePiece, SyntaxNode};

/// Some nodes in their order; the tokens between them are passed over.
#[derive(Clone, Copy)]
pub struct Nodes<'a> {
    pieces: &'a [NodePiece],
}

/// The first of some nodes, and the others.
#[derive(Clone, Copy)]
pub struct First<'a> {
    pub first: &'a SyntaxNode,
    pub rest: Nodes<'a>,
}

/// The last of some nodes, and the others.
#[derive(Clone, Copy)]
pub struct Last<'a> {
    pub earlier: Nodes<'a>,
    pub last: &'a SyntaxNode,
}

/// The names that stand first among some nodes, and the nodes behind them.
#[derive(Clone, Copy)]
pub struct LeadingNames<'a> {
    pub names: Nodes<'a>,
    pub others: Nodes<'a>,
}

/// Whether a node is a name by itself.
#[tactic(auto, using(crate::proofs::Named::no_ident_seen, crate::proofs::Named::seen_as))]
pub fn is_name(node: &SyntaxNode) -> bool
    ensures { result ≡ is_ident (syn_of node.now) }
{
    match node.row {
        GrammarRow::Ident => true,
        _ => false,
    }
}

impl<'a> Nodes<'a> {
    /// The nodes among some parts of a node.
    pub fn among(pieces: &'a [NodePiece]) -> Nodes<'a>
        ensures { nodes_of result ≡ views (parts_in pieces.now) }
    {
        Nodes { pieces }
    }

    /// The first node; `None` where there is none.
    pub fn split_first(self) -> Option<First<'a>>
        ensures { by_first result ≡ nodes_of self.entry }
    {
        for (i, piece) in self.pieces.iter().enumerate() {
            if let NodePiece::Node(first) = piece {
                return Some(First {
                    first,
                    rest: Nodes {
                        pieces: &self.pieces[i + 1..],
                    },
                });
            }
        }
        None
    }

    /// Whether there is none.
    pub fn is_empty(self) -> bool
        ensures { result ≡ is_none (nodes_of self.entry) }
    {
        self.split_first().is_none()
    }

    /// The first node by itself.
    pub fn first(self) -> Option<&'a SyntaxNode>
        ensures { maybe_of result ≡ first_of (nodes_of self.entry) }
    {
        match self.split_first() {
            Some(split) => Some(split.first),
            None => None,
        }
    }

    /// The last node, and the others; `None` where there is none.

    pub fn split_last(self) -> Option<Last<'a>>
        ensures last { last_node result ≡ last_of (nodes_of self.entry) }
        ensures earlier { MatchOption result (nodes_of self.entry ≡ no_syn) (λ split.
            nodes_of split.earlier ≡ but_last (nodes_of self.entry)) }
    {
        let pieces = self.pieces;
        let mut left = pieces.len();
        while left > 0 {
            left -= 1;
            if let NodePiece::Node(last) = &pieces[left] {
                return Some(Last {
                    earlier: Nodes {
                        pieces: &pieces[..left],
                    },
                    last,
                });
            }
        }
        None
    }

    /// The last node by itself.
    pub fn last(self) -> Option<&'a SyntaxNode>
        ensures { maybe_of result ≡ last_of (nodes_of self.entry) }
    {
        match self.split_last() {
            Some(split) => Some(split.last),
            None => None,
        }
    }

    /// All nodes but the last.
    pub fn but_last(self) -> Nodes<'a>
        ensures { nodes_of result ≡ but_last (nodes_of self.entry) }
    {
        match self.split_last() {
            Some(split) => split.earlier,
            None => Nodes { pieces: &[] },
        }
    }

    /// All nodes but the first.
    pub fn rest(self) -> Nodes<'a>
        ensures { nodes_of result ≡ rest_of (nodes_of self.entry) }
    {
        match self.split_first() {
            Some(split) => split.rest,
            None => Nodes { pieces: &[] },
        }
    }

    /// The names that stand first, and the nodes behind them.
    pub fn split_names(self) -> LeadingNames<'a>
        ensures names { are_idents (nodes_of result.names) ≡ true }
        ensures first { idents (nodes_of self.entry) ≡ idents (nodes_of result.names) }
        ensures others { behind_idents (nodes_of self.entry) ≡ nodes_of result.others }
    {
        let pieces = self.pieces;
        for (i, piece) in pieces.iter().enumerate() {
            match piece {
                NodePiece::Token(_) => {}
                NodePiece::Node(node) => {
                    if !is_name(node) {
                        return LeadingNames {
                            names: Nodes {
                                pieces: &pieces[..i],
                            },
                            others: Nodes {
                                pieces: &pieces[i..],
                            },
                        };
                    }
                }
            }
        }
        LeadingNames {
            names: self,
            others: Nodes { pieces: &[] },
        }
    }
}
