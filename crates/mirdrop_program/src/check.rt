//! The command `check`.
ghost use Rattle.std.specs.Prelude.{◌≡◌, ◌≤◌, IfOk, length};
ghost use Rattle.mirdrop_program.specs.Owed.{OwedByCheck, accepted_line};

use crate::answers::Answer;
use crate::refusals::refused_answer;
use mir_base::NoMemory;
use mir_pipeline::check;
use std::alloc::Global;

/// The answer to a program that is accepted.
fn accepted_answer(alloc: Global) -> Result<Answer, NoMemory>
    ensures status { IfOk result (λ answer. answer.status ≡ 0) }
    ensures text { IfOk result (λ answer. answer.text.items ≡ accepted_line) }
{
    let text = String::from_str(alloc, "accepted\n")?;
    Ok(Answer {
        status: 0,
        text: text.into_bytes(),
    })
}

/// Whether the program of a text is accepted.
pub fn check_answer(alloc: Global, text: &[u8]) -> Result<Answer, NoMemory>
    requires { length text.now ≤ 131072 }
    ensures { IfOk result (λ answer. OwedByCheck text.now answer.status answer.text.items) }
{
    match check(alloc, text) {
        Ok(()) => accepted_answer(alloc),
        Err(refusal) => refused_answer(alloc, &refusal),
    }
}
