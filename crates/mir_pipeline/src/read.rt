ghost use Rattle.std.specs.Prelude.{◌<◌, ◌-◌, ◌^◌, IfOk, IfErr, length};
ghost use Rattle.mir_pipeline.specs.Trees.{IsTreeOf, IsRefused};

use crate::Refusal;
use src_parse::parse_owned;
use src_token::{end_of, lex};
use src_tree::Tree;
use std::alloc::Global;

/// The syntax tree of a text of at most 4,294,967,294 bytes: levelled, nested at most 64 levels deep, and spelled by
/// the tokens of the text. A text has at most one.
///
/// Where there is none, the refusal is the first error of its tokens, or else its first bad token.
#[tactic(auto, using(crate::proofs::Refusals::no_tokens, crate::proofs::Refusals::no_tree))]
pub fn read_tree(alloc: Global, text: &[u8]) -> Result<Tree, Refusal>
    requires { length text.now < 2 ^ 32 - 1 }
    ensures tree { IfOk result (λ tree. IsTreeOf text.now tree) }
    ensures refused { IfErr result (λ refusal. IsRefused text.now refusal) }
{
    let tokens = lex(alloc, text)?;
    let tree = parse_owned(alloc, tokens, end_of(text))?;
    Ok(tree)
}
