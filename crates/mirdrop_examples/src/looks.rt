//! What the second program answers to texts of `data`: what is to be written stands in `NAME.look`.
use look_program::{Answer, Look, answer_text, trace_text};
use mir_base::NoMemory;
use mir_base::limits::MAX_TEXT_BYTES;
use std::alloc::Global;
use std::rt::Files;
use std::{fs, io};

/// The file with the answer, the file with the text, and what is asked for.
static LOOKS: [(&str, &str, Look); 9] = [
    ("moved_in_a_loop.look", "moved_in_a_loop.rs", Look::Explain),
    (
        "moved_on_both_ways.look",
        "moved_on_both_ways.rs",
        Look::Explain,
    ),
    (
        "store_into_a_moved_value.look",
        "store_into_a_moved_value.rs",
        Look::Explain,
    ),
    ("another_type.look", "another_type.rs", Look::Explain),
    ("bad_character.look", "bad_character.rs", Look::Explain),
    ("impl_twice.look", "impl_twice.listing", Look::Explain),
    ("empty_main.look", "empty_main.rs", Look::Dot),
    (
        "listing_of_a_local.look",
        "listing_of_a_local.listing",
        Look::Dot,
    ),
    (
        "moved_on_one_way_built.look",
        "moved_on_one_way.rs",
        Look::Built,
    ),
];

/// The file with what is told of a run, the file with the text, and the numbers to be asked.
static TRACES: [(&str, &str, &[i32]); 4] = [
    ("moved_on_one_way_told.look", "moved_on_one_way.rs", &[0]),
    ("moved_on_no_way_told.look", "moved_on_one_way.rs", &[1]),
    ("destructor_prints_told.look", "destructor_prints.rs", &[]),
    (
        "panic_in_a_destructor_told.look",
        "panic_in_a_destructor.rs",
        &[],
    ),
];

/// How many ticks a run that is told has.
const TICKS: u64 = 10000;

fn looked_at(alloc: Global, look: Look, text: &[u8]) -> Result<Answer, NoMemory> {
    if text.len() > MAX_TEXT_BYTES {
        return Err(NoMemory);
    }
    answer_text(alloc, look, text)
}

fn told(alloc: Global, asks: &[i32], text: &[u8]) -> Result<Answer, NoMemory> {
    if text.len() > MAX_TEXT_BYTES {
        return Err(NoMemory);
    }
    trace_text(alloc, asks, TICKS, text)
}

fn compared(answer: Result<Answer, NoMemory>, wanted: &[u8]) -> &'static str {
    match answer {
        Ok(answer) => {
            if answer.text.as_slice() == wanted {
                "as written"
            } else {
                "another text"
            }
        }
        Err(NoMemory) => "no answer",
    }
}

fn verdict(
    rt: &(impl Files + AllocGlobal),
    file: &str,
    text: &str,
    look: Look,
) -> io::Result<&'static str> {
    let text = fs::read_to_string(rt, text)?;
    let wanted = fs::read_to_string(rt, file)?;
    let answer = looked_at(rt.alloc(), look, text.as_bytes());
    Ok(compared(answer, wanted.as_bytes()))
}

fn verdict_of_run(
    rt: &(impl Files + AllocGlobal),
    file: &str,
    text: &str,
    asks: &[i32],
) -> io::Result<&'static str> {
    let text = fs::read_to_string(rt, text)?;
    let wanted = fs::read_to_string(rt, file)?;
    let answer = told(rt.alloc(), asks, text.as_bytes());
    Ok(compared(answer, wanted.as_bytes()))
}

/// Writes whether each text is answered as its file says.
pub fn write_looks(rt: &(impl Files + Print + AllocGlobal)) -> io::Result<()> {
    for (file, text, look) in LOOKS.iter() {
        let verdict = verdict(rt, file, text, *look)?;
        println!(rt; "{file}: {verdict}")?;
    }
    for (file, text, asks) in TRACES.iter() {
        let verdict = verdict_of_run(rt, file, text, asks)?;
        println!(rt; "{file}: {verdict}")?;
    }
    Ok(())
}
