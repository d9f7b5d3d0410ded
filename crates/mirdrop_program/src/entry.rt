//! The entry of the program: words, a source and a sink to a status.
ghost use Rattle.std.specs.Prelude.{◌≡◌, ◌≤◌, ◌<◌, ◌⊎◌, ℕ, List, Option, [], length, map, string_bytes, Some, None, true, false};
ghost use Rattle.mir_edge.specs.Faults.{HasRisen};
ghost use Rattle.mir_edge.specs.Told.{WhereTold};
ghost use Rattle.mirdrop_program.specs.Words.{request_of as asked_by};
ghost use Rattle.mirdrop_program.specs.Words.{HasFewFunctions};
ghost use Rattle.mirdrop_program.specs.TopCall as due;
ghost use Rattle.mirdrop_program.specs.TopCall.{HasAnswered, IsComplete, answers_a_text, is_of_soak};
ghost use Rattle.mirdrop_program.specs.declared.request.Command.{Command as a_command};
ghost use Rattle.mirdrop_program.specs.declared.request.Request.{Request as a_request};

use crate::commands::respond;
use crate::deliver::deliver;
use crate::{Command, Request, WordsError, request_of};
use mir_base::limits::MAX_TEXT_BYTES;
use mir_edge::{ReadAllError, Sink, Source, read_all};
use std::alloc::Global;

/// Does what is asked for with the text of the source.
fn with_request<S: Source, K: Sink>(
    alloc: Global,
    request: &Request,
    source: &mut S,
    sink: &mut K,
) -> u8
    requires ticks { request.now.ticks ≤ 1000000000 }
    requires functions { HasFewFunctions request.now.command }
    requires reads { due.reads_text request.now.command ≡ true }
    ensures source_faults { S.faults source.old ≤ S.faults source.new }
    ensures sink_faults { K.faults sink.old ≤ K.faults sink.new }
    ensures read_fault { result ≡ 3 → HasRisen (S.faults source.old) (S.faults source.new) }
    ensures write_fault { result ≡ 4 → HasRisen (K.faults sink.old) (K.faults sink.new) }
    ensures no_words { result ≡ 2 → ⊥ }
    ensures stuck { result ≡ 13 → request.now.command ≡ a_command.Exec }
    ensures answer { (words : List (List ℕ)) → asked_by words ≡ Some request.now →
        HasAnswered words (S.left source.old) (K.taken sink.old) (K.taken sink.new)
        (HasRisen (S.faults source.old) (S.faults source.new)) (HasRisen (K.faults sink.old) (K.faults sink.new)) result }
    ensures read_whole { answers_a_text result ≡ true → WhereTold (S.left source.old) (λ _. S.left source.new ≡ Some []) }
    ensures too_long { result ≡ 6 → WhereTold (S.left source.old) (λ text. MAX_TEXT_BYTES < length text) }
{
    match read_all(alloc, source, MAX_TEXT_BYTES) {
        Ok(text) => respond(alloc, request, text.as_slice(), sink),
        Err(ReadAllError::ReadFault) => deliver(sink, 3, b"fault: read\n"),
        Err(ReadAllError::TooLong) => deliver(sink, 6, b"refused: text over 131072 bytes\n"),
        Err(ReadAllError::Memory) => 5,
    }
}

/// Whether a command reads a text.
fn reads_text(command: Command) -> bool
    ensures { result ≡ due.reads_text command }
{
    match command {
        Command::Check | Command::Raw | Command::Build | Command::Run | Command::Exec => true,
        Command::Soak { .. } => false,
    }
}

/// Does what is asked for without a text.
fn without_text<K: Sink>(alloc: Global, request: &Request, sink: &mut K) -> u8
    requires ticks { request.now.ticks ≤ 1000000000 }
    requires functions { HasFewFunctions request.now.command }
    requires reads { due.reads_text request.now.command ≡ false }
    ensures sink_faults { K.faults sink.old ≤ K.faults sink.new }
    ensures write_fault { result ≡ 4 → HasRisen (K.faults sink.old) (K.faults sink.new) }
    ensures statuses { is_of_soak result ≡ true }
    ensures answer { (words : List (List ℕ)) (left : Option (List ℕ)) (old new : ℕ) → asked_by words ≡ Some request.now →
        HasAnswered words left (K.taken sink.old) (K.taken sink.new) (HasRisen old new) (HasRisen (K.faults sink.old) (K.faults sink.new)) result }
{
    respond(alloc, request, b"", sink)
}

/// Does what is asked for, with the text of the source where one is read.
fn with_source<S: Source, K: Sink>(
    alloc: Global,
    request: &Request,
    source: &mut S,
    sink: &mut K,
) -> u8
    requires ticks { request.now.ticks ≤ 1000000000 }
    requires functions { HasFewFunctions request.now.command }
    ensures source_faults { S.faults source.old ≤ S.faults source.new }
    ensures sink_faults { K.faults sink.old ≤ K.faults sink.new }
    ensures read_fault { result ≡ 3 → HasRisen (S.faults source.old) (S.faults source.new) }
    ensures write_fault { result ≡ 4 → HasRisen (K.faults sink.old) (K.faults sink.new) }
    ensures no_words { result ≡ 2 → ⊥ }
    ensures stuck { result ≡ 13 → request.now.command ≡ a_command.Exec }
    ensures soak { due.reads_text request.now.command ≡ false → (is_of_soak result ≡ true) × (source.new ≡ source.old) }
    ensures answer { (words : List (List ℕ)) → asked_by words ≡ Some request.now →
        HasAnswered words (S.left source.old) (K.taken sink.old) (K.taken sink.new)
        (HasRisen (S.faults source.old) (S.faults source.new)) (HasRisen (K.faults sink.old) (K.faults sink.new)) result }
    ensures read_whole { due.reads_text request.now.command ≡ true → answers_a_text result ≡ true →
        WhereTold (S.left source.old) (λ _. S.left source.new ≡ Some []) }
    ensures too_long { result ≡ 6 → WhereTold (S.left source.old) (λ text. MAX_TEXT_BYTES < length text) }
{
    if reads_text(request.command) {
        with_request(alloc, request, source, sink)
    } else {
        without_text(alloc, request, sink)
    }
}

/// Does what the words say with the text of the source, writes the outcome to the sink, and answers the exit status.
///
/// The words are those after the program's name: a command, numbers, and `--ticks N` anywhere. `check`, `raw` and `build`
/// take no number, `run` and `exec` at most 64 of them, which `ask()` answers in turn, and `soak` exactly one, from 1 to
/// 1,500.
///
/// | Command | Text | What it writes |
/// |---|---|---|
/// | `check` | a program | `accepted`, or the refusal |
/// | `raw` | a program | the listing of its raw graph, and behind it the refusal of its first bad use, if it has one |
/// | `build` | a program | the listing of its graph with exact drops, if it is accepted, or the refusal |
/// | `run` | a program | its trace, as the graph of `build` gives it by strict steps, if it is accepted, or the refusal |
/// | `exec` | a listing | the trace of its graph by strict steps, or the refusal |
/// | `soak` | none; the source is left as it was | the summary of the run of the program that `soak_text` makes, with 64 zeros |
///
/// | Status | When |
/// |---|---|
/// | 0 | done, or the run returned |
/// | 1 | the text is refused |
/// | 2 | the words are refused; the source is left as it was |
/// | 3 | the source failed |
/// | 4 | the sink failed; what was written is a prefix of what was due |
/// | 5 | memory was wanted; nothing was written, and of a trace some beginning |
/// | 6 | the source gave more than 131,072 bytes |
/// | 10, 11, 12 | the run panicked, aborted or ran out of ticks |
/// | 13 | the run of a listing is stuck, under `exec` |
pub fn mirdrop<S: Source, K: Sink>(
    alloc: Global,
    words: &[String],
    source: &mut S,
    sink: &mut K,
) -> u8
    // The counts of faults never fall, and each failure has its count.
    ensures source_faults { S.faults source.old ≤ S.faults source.new }
    ensures sink_faults { K.faults sink.old ≤ K.faults sink.new }
    ensures read_fault { result ≡ 3 → HasRisen (S.faults source.old) (S.faults source.new) }
    ensures write_fault { result ≡ 4 → HasRisen (K.faults sink.old) (K.faults sink.new) }

    // Wrong words are refused, whatever the source is, and it is left as it was.
    ensures words { result ≡ 2 → asked_by (map string_bytes words.now) ≡ None }
    ensures wrong_words { asked_by (map string_bytes words.now) ≡ None →
        ((result ≡ 2) ⊎ (result ≡ 4) ⊎ (result ≡ 5)) × (source.new ≡ source.old) }

    // No text is read for `soak`; it has these statuses alone, or 2 where the words are wrong.
    ensures soak { (request : a_request) → asked_by (map string_bytes words.now) ≡ Some request → due.reads_text request.command ≡ false →
        (is_of_soak result ≡ true) × (source.new ≡ source.old) }

    // A run that is stuck is one of `exec`.
    ensures stuck { result ≡ 13 → (request : a_request) → asked_by (map string_bytes words.now) ≡ Some request → request.command ≡ a_command.Exec }

    // Where the source tells its bytes and the sink those that it took: what is written, and that an answer
    // to a text that is read leaves none of it unread.
    ensures answer { HasAnswered (map string_bytes words.now) (S.left source.old) (K.taken sink.old) (K.taken sink.new)
        (HasRisen (S.faults source.old) (S.faults source.new)) (HasRisen (K.faults sink.old) (K.faults sink.new)) result }
    ensures complete { IsComplete (map string_bytes words.now) (S.left source.old) (K.taken sink.old) (K.taken sink.new)
        (HasRisen (S.faults source.old) (S.faults source.new)) (HasRisen (K.faults sink.old) (K.faults sink.new)) result }
    ensures read_whole { (request : a_request) → asked_by (map string_bytes words.now) ≡ Some request → due.reads_text request.command ≡ true →
        answers_a_text result ≡ true → WhereTold (S.left source.old) (λ _. S.left source.new ≡ Some []) }
    ensures too_long { result ≡ 6 → WhereTold (S.left source.old) (λ text. MAX_TEXT_BYTES < length text) }
{
    match request_of(alloc, words) {
        Ok(request) => with_source(alloc, &request, source, sink),
        Err(WordsError::Refused) => deliver(sink, 2, b"refused: words\n"),
        Err(WordsError::Memory) => 5,
    }
}
