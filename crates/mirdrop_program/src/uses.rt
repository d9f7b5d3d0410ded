//! Refused uses.
ghost use Rattle.std.specs.Prelude.{◌≡◌, ◌++◌, OnOk, codes, string_bytes};
ghost use Rattle.mirdrop_program.specs.Lines as lines;

use crate::parts::{put, put_line_feed, put_numbered};
use crate::rules::put_place;
use mir_base::Pos;
use std::alloc::AllocError;
use typed_tree::Use;

fn use_word(by: Use) -> &'static str
    ensures { result.now ≡ lines.use_word by }
{
    match by {
        Use::Move => "move",
        Use::Copy => "copy",
        Use::Borrow | Use::BorrowMut => "borrow",
        Use::Test => "test",
        Use::Store => "store",
    }
}

/// Puts words and a place in words.
fn put_named(out: &mut String, words: &str, place: &str) -> Result<(), AllocError>
    ensures { OnOk result (string_bytes out.new ≡ string_bytes out.old ++ (words.now ++ place.now)) }
{
    put(out, words)?;
    put(out, place)
}

/// Puts the line of a use of what is gone.
pub fn put_use_line(out: &mut String, place: &str, by: Use, at: Pos) -> Result<(), AllocError>
    ensures { OnOk result (string_bytes out.new ≡ string_bytes out.old ++ lines.use_line place.now by at) }
{
    put_named(out, "refused: U1 ", place)?;
    put_named(out, " by ", use_word(by))?;
    put_place(out, at)
}

/// Puts the line of a store into a part of what is gone.
pub fn put_store_line(out: &mut String, place: &str, at: Pos) -> Result<(), AllocError>
    ensures { OnOk result (string_bytes out.new ≡ string_bytes out.old ++ lines.store_line place.now at) }
{
    put_named(out, "refused: U2 ", place)?;
    put_place(out, at)
}

fn put_answers(out: &mut String, answers: &[u8]) -> Result<(), AllocError>
    ensures { OnOk result (string_bytes out.new ≡ string_bytes out.old ++ lines.behind_blanks answers.now) }
{
    for answer in answers {
        put_numbered(out, " ", u32::from(*answer))?;
    }
    Ok(())
}

fn put_blocks(out: &mut String, path: &[u32]) -> Result<(), AllocError>
    ensures { OnOk result (string_bytes out.new ≡ string_bytes out.old ++ lines.behind_blanks path.now) }
{
    for block in path {
        put_numbered(out, " ", *block)?;
    }
    Ok(())
}

fn put_answers_line(out: &mut String, answers: &[u8]) -> Result<(), AllocError>
    ensures { OnOk result (string_bytes out.new ≡ string_bytes out.old ++ lines.answers_line answers.now) }
{
    put(out, "answers:")?;
    put_answers(out, answers)?;
    put_line_feed(out)
}

fn put_path_line(out: &mut String, body: u32, path: &[u32]) -> Result<(), AllocError>
    ensures { OnOk result (string_bytes out.new ≡ string_bytes out.old ++ lines.path_line body path.now) }
{
    put_numbered(out, "path: body ", body)?;
    put(out, " blocks")?;
    put_blocks(out, path)?;
    put_line_feed(out)
}

/// Puts the lines of the choices and of the path by which a refused use is reached.
pub fn put_way_lines(
    out: &mut String,
    answers: &[u8],
    body: u32,
    path: &[u32],
) -> Result<(), AllocError>
    ensures { OnOk result (string_bytes out.new ≡ string_bytes out.old ++ lines.way_lines answers.now body path.now) }
{
    put_answers_line(out, answers)?;
    put_path_line(out, body, path)
}
