//! Texts that grow.
ghost use Rattle.std.specs.Prelude.{◌≡◌, ◌++◌, ◌∷◌, [], OnOk};
ghost use Rattle.std.specs.Fmt.{decimal};

use mir_base::NoMemory;
use std::alloc::Global;

/// Puts words behind a text.
///
/// # Errors
///
/// [`NoMemory`] where memory is wanted.
pub fn put(out: &mut Vec<u8>, words: &[u8]) -> Result<(), NoMemory>
    ensures { OnOk result (out.new.items ≡ out.old.items ++ words.now) }
{
    out.extend_from_slice(words)?;
    Ok(())
}

/// Puts a number behind a text.
///
/// # Errors
///
/// [`NoMemory`] where memory is wanted.
pub fn put_number(alloc: Global, out: &mut Vec<u8>, number: u32) -> Result<(), NoMemory>
    ensures { OnOk result (out.new.items ≡ out.old.items ++ decimal number) }
{
    let mut digits = String::new(alloc);
    write!(digits, "{number}")?;
    put(out, digits.as_bytes())
}

/// Puts words and a number behind a text.
///
/// # Errors
///
/// [`NoMemory`] where memory is wanted.
pub fn put_numbered(
    alloc: Global,
    out: &mut Vec<u8>,
    words: &[u8],
    number: u32,
) -> Result<(), NoMemory>
    ensures { OnOk result (out.new.items ≡ out.old.items ++ (words.now ++ decimal number)) }
{
    put(out, words)?;
    put_number(alloc, out, number)
}

/// Ends a line.
///
/// # Errors
///
/// [`NoMemory`] where memory is wanted.
pub fn put_line_feed(out: &mut Vec<u8>) -> Result<(), NoMemory>
    ensures { OnOk result (out.new.items ≡ out.old.items ++ 10 ∷ []) }
{
    put(out, b"\n")
}
