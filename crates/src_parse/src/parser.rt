ghost use Rattle.std.specs.Prelude.{◌≡◌, ◌<◌, ◌^◌, IfOk, IfErr, length};
ghost use Rattle.src_parse.specs.Answers.{IsTree, IsRefused};

use crate::ParseError;
use crate::frame::{passes, start};
use crate::steps::{close, step};
use mir_base::{List, NoMemory, Pos};
use src_token::Spanned;
use src_tree::{Tree, copy_token};
use std::alloc::Global;

/// Second tokens with the same content.
fn copies(alloc: Global, tokens: &[Spanned]) -> Result<List<Spanned>, NoMemory>
    ensures { IfOk result (λ copies. copies ≡ tokens.now) }
{
    let mut copies = List::new(alloc);
    for spanned in tokens {
        copies.push(Spanned {
            token: copy_token(alloc, &spanned.token)?,
            at: spanned.at,
            start: spanned.start,
            end: spanned.end,
        })?;
    }
    Ok(copies)
}

/// The syntax tree of the tokens of a text, with the place of its end. There are fewer than 4,294,967,296 tokens.
///
/// The tree is levelled, nested at most 64 levels deep, and spelled by the tokens; each of its nodes has the place of
/// its first token. There is at most one. Where there is none, the error names the first bad token.
pub fn parse(alloc: Global, tokens: &[Spanned], end: Pos) -> Result<Tree, ParseError>
    requires { length tokens.now < 2 ^ 32 }
    ensures tree { IfOk result (λ tree. IsTree tokens.now end tree) }
    ensures refused { IfErr result (λ error. IsRefused tokens.now end error) }
{
    let tokens = copies(alloc, tokens)?;
    parse_owned(alloc, tokens, end)
}

/// The same of tokens that become parts of the tree, so that their names are not copied.
pub fn parse_owned(alloc: Global, tokens: List<Spanned>, end: Pos) -> Result<Tree, ParseError>
    requires { length tokens < 2 ^ 32 }
    ensures tree { IfOk result (λ tree. IsTree tokens end tree) }
    ensures refused { IfErr result (λ error. IsRefused tokens end error) }
{
    let mut below = List::new(alloc);
    let mut top = start(alloc, end);
    let mut at = 0;
    for spanned in tokens {
        let pos = spanned.at;
        if !step(alloc, &mut below, &mut top, spanned.token, pos)? {
            return Err(ParseError::Syntax { at, pos });
        }
        if passes(&top) {
            return Err(ParseError::TooDeep { at, pos });
        }
        at += 1;
    }
    if !close(&mut below, &mut top)? {
        return Err(ParseError::Syntax { at, pos: end });
    }
    Ok(Tree {
        items: top.parts,
        end,
    })
}
