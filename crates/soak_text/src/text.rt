//! The text, line by line.
ghost use Rattle.std.specs.Prelude.{◌≡◌, ◌≤◌, ◌++◌, IfOk, OnOk};
ghost use Rattle.std.specs.String.{string_bytes};
ghost use Rattle.soak_text.specs.Text as text;

use mir_base::{List, NoMemory};
use std::alloc::Global;
use std::fmt::Write;

/// Puts the line of the function of a number behind a text.
fn put_function(out: &mut String, number: u32) -> Result<(), NoMemory>
    ensures { OnOk result (string_bytes out.new ≡ string_bytes out.old ++ text.function_line number) }
{
    if number == 0 {
        out.push_str("fn f0(x: D) { let y = D(0); if ask() == 0 { drop(x); } }\n")?;
        return Ok(());
    }
    let before = number - 1;
    write!(
        out,
        "fn f{number}(x: D) {{ let y = D({number}); if ask() == 0 {{ f{before}(x); }} }}\n"
    )?;
    Ok(())
}

/// Puts the line of `main` behind a text, where there are so many functions.
fn put_main(out: &mut String, functions: u32) -> Result<(), NoMemory>
    requires { 1 ≤ functions }
    ensures { OnOk result (string_bytes out.new ≡ string_bytes out.old ++ text.main_line functions) }
{
    let last = functions - 1;
    write!(out, "fn main() {{ f{last}(D({functions})); }}\n")?;
    Ok(())
}

/// The text of the program with `k` functions, for `k` from 1 on: a struct with a `Drop` impl; the functions, of which
/// the first drops its argument, and each other one makes a value of its own and calls the one before it where 0 is
/// asked; and a `main` that calls the last one.
///
/// # Errors
///
/// [`NoMemory`] where memory is wanted.
pub fn soak_text(alloc: Global, k: u32) -> Result<List<u8>, NoMemory>
    requires { 1 ≤ k }
    ensures { IfOk result (λ bytes. bytes ≡ text.soak_text k) }
{
    let mut out = String::new(alloc);
    out.push_str("struct D(i32);\nimpl Drop for D { fn drop(&mut self) { print(self.0); } }\n")?;
    for number in 0..k {
        put_function(&mut out, number)?;
    }
    put_main(&mut out, k)?;
    Ok(List::from_vec(out.into_bytes()))
}
