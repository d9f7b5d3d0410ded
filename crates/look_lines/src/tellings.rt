//! The text of a run, told to people.
ghost use Rattle.std.specs.Prelude.{◌≡◌, ◌++◌, OnOk, IfOk, not, ◌==◌, flat_map, codes};
ghost use Rattle.std.specs.Fmt.{decimal};
ghost use Rattle.std.specs.List.{filter};
ghost use Rattle.look_lines.specs.Tellings as tellings;

use crate::snippets::{behind_line, first_line, line_of};
use crate::texts::{put, put_line_feed, put_number};
use mir_base::{List, NoMemory, Pos};
use std::alloc::Global;

/// What is known of a run after some lines of its trace.
#[derive(Drop)]
pub struct Reading {
    /// The numbers of the lines at which the bodies are that have begun, the youngest body's last.
    pub at: List<u64>,
    /// Whether the line before told the number of a line that prints.
    pub prints: bool,
    /// The serial numbers that are alive.
    pub alive: List<u64>,
}

fn is_digit(byte: u8) -> bool
    ensures { result ≡ tellings.is_digit byte }
{
    48 <= byte && byte < 58
}

fn with_digit(n: u64, byte: u8) -> u64
    ensures { result ≡ tellings.with_digit n byte }
{
    if is_digit(byte) {
        n % 100000000000000000 * 10 + (byte - 48) as u64
    } else {
        0
    }
}

/// The number at the end of a line.
fn number_at_end(words: &[u8]) -> u64
    ensures { result ≡ tellings.number_at_end words.now }
{
    let mut n: u64 = 0;
    for byte in words {
        n = with_digit(n, *byte);
    }
    n
}

fn enters(words: &[u8]) -> bool
    ensures { result ≡ tellings.enters words.now }
{
    words.starts_with(b"call ") || words.starts_with(b"drop ")
}

fn leaves(words: &[u8]) -> bool
    ensures { result ≡ tellings.leaves words.now }
{
    words.starts_with(b"return ") || words.starts_with(b"unwind ")
}

fn makes(words: &[u8]) -> bool
    ensures { result ≡ tellings.makes words.now }
{
    words.starts_with(b"make ") || words.starts_with(b"box ")
}

fn ends(words: &[u8]) -> bool
    ensures { result ≡ tellings.ends words.now }
{
    words.starts_with(b"drop ") || words.starts_with(b"free ") || words.starts_with(b"forget ")
}

/// The numbers but for one.
fn without(alloc: Global, numbers: &[u64], n: u64) -> Result<List<u64>, NoMemory>
    ensures { IfOk result (λ kept. kept ≡ filter (λ m. not (m == n)) numbers.now) }
{
    let mut kept = List::new(alloc);
    for m in numbers {
        if *m != n {
            kept.push(*m)?;
        }
    }
    Ok(kept)
}

/// The last number is taken away, if there is one.
fn take_last(numbers: &mut List<u64>)
    ensures { numbers.new ≡ tellings.without_last numbers.old }
{
    let count = numbers.len().saturating_sub(1);
    numbers.truncate(count);
}

impl Reading {
    /// Before the first line of a trace.
    fn new(alloc: Global) -> Reading
        ensures { result ≡ tellings.at_first }
    {
        Reading {
            at: List::new(alloc),
            prints: false,
            alive: List::new(alloc),
        }
    }

    /// Whether a line tells the number of a line of the graph.
    fn tells_number(&self, words: &[u8]) -> bool
        ensures { result ≡ tellings.tells_number self.now words.now }
    {
        words.starts_with(b"print ") && !self.prints
    }

    /// The youngest body comes to a line.
    fn come_to(&mut self, n: u64) -> Result<(), NoMemory>
        ensures { OnOk result (self.new ≡ record self.old { at = tellings.at_line n self.old.at }) }
    {
        take_last(&mut self.at);
        self.at.push(n)
    }

    /// Bodies are entered and left.
    fn follow(&mut self, words: &[u8]) -> Result<(), NoMemory>
        ensures { OnOk result (self.new ≡ record self.old { at = tellings.bodies_after words.now self.old.at }) }
    {
        if enters(words) {
            self.at.push(0)?;
        } else if leaves(words) {
            take_last(&mut self.at);
        }
        Ok(())
    }

    /// Values begin and end.
    fn count(&mut self, alloc: Global, words: &[u8]) -> Result<(), NoMemory>
        ensures { OnOk result (self.new ≡ record self.old { alive = tellings.alive_after words.now self.old.alive }) }
    {
        if makes(words) {
            self.alive.push(number_at_end(words))?;
        } else if ends(words) {
            self.alive = without(alloc, self.alive.as_slice(), number_at_end(words))?;
        }
        Ok(())
    }

    /// What a line tells is taken in.
    fn read(&mut self, alloc: Global, words: &[u8]) -> Result<(), NoMemory>
        ensures { OnOk result (self.new ≡ tellings.after self.old words.now) }
    {
        if self.tells_number(words) {
            self.prints = words.starts_with(b"print -");
            return self.come_to(number_at_end(words));
        }
        self.prints = false;
        self.follow(words)?;
        self.count(alloc, words)
    }
}

/// The place of the line that made a line of the trace.
fn place_at(places: &[Option<Pos>], at: &[u64]) -> Option<Pos>
    ensures { result ≡ tellings.place_at places.now at.now }
{
    let n = *at.get(at.len().saturating_sub(1))?;
    *places.get(n as usize)?
}

/// Puts the serial numbers that are alive.
fn put_alive(alloc: Global, out: &mut Vec<u8>, alive: &[u64]) -> Result<(), NoMemory>
    ensures { OnOk result (out.new.items ≡ out.old.items ++ tellings.alive_words alive.now) }
{
    put(out, b"; alive:")?;
    put_all(alloc, out, alive)
}

/// Puts a serial number.
fn put_serial(alloc: Global, out: &mut Vec<u8>, n: u64) -> Result<(), NoMemory>
    ensures { OnOk result (out.new.items ≡ out.old.items ++ (codes " #" ++ decimal n)) }
{
    let mut words = String::new(alloc);
    write!(words, " #{n}")?;
    put(out, words.as_bytes())
}

/// Puts serial numbers.
fn put_all(alloc: Global, out: &mut Vec<u8>, numbers: &[u64]) -> Result<(), NoMemory>
    ensures { OnOk result (out.new.items ≡ out.old.items ++ flat_map (λ n. codes " #" ++ decimal n) numbers.now) }
{
    for n in numbers {
        put_serial(alloc, out, *n)?;
    }
    Ok(())
}

/// Puts a place.
fn put_place(alloc: Global, out: &mut Vec<u8>, at: Pos) -> Result<(), NoMemory>
    ensures { OnOk result (out.new.items ≡ out.old.items ++ tellings.place_words at) }
{
    put(out, b" at ")?;
    put_number(alloc, out, at.line)?;
    put(out, b":")?;
    put_number(alloc, out, at.col)
}

/// Puts a line of a trace with what is alive, and its place, if it has one.
fn put_told(
    alloc: Global,
    out: &mut Vec<u8>,
    text: &[u8],
    words: &[u8],
    alive: &[u64],
    place: Option<Pos>,
) -> Result<(), NoMemory>
    ensures { OnOk result (out.new.items ≡ out.old.items ++ tellings.told_at text.now words.now alive.now place) }
{
    put(out, words)?;
    match place {
        None => put_alive(alloc, out, alive)?,
        Some(at) => {
            put_place(alloc, out, at)?;
            put_alive(alloc, out, alive)?;
            put(out, b" | ")?;
            put(out, line_of(text, at.line))?;
        }
    }
    put_line_feed(out)
}

/// Puts what a line tells that has been taken in, with the place where it was made.
fn put_event(
    alloc: Global,
    out: &mut Vec<u8>,
    text: &[u8],
    words: &[u8],
    alive: &[u64],
    place: Option<Pos>,
) -> Result<(), NoMemory>
    ensures { OnOk result (out.new.items ≡ out.old.items ++ tellings.event_told text.now words.now alive.now place) }
{
    if words.starts_with(b"end: ") {
        put(out, words)?;
        return put_line_feed(out);
    }
    put_told(alloc, out, text, words, alive, place)
}

/// Puts what a line tells, and takes it in.
fn put_line(
    alloc: Global,
    out: &mut Vec<u8>,
    text: &[u8],
    places: &[Option<Pos>],
    words: &[u8],
    reading: &mut Reading,
) -> Result<(), NoMemory>
    ensures told { OnOk result (out.new.items ≡ out.old.items
        ++ tellings.line_told text.now places.now reading.old words.now) }
    ensures after { OnOk result (reading.new ≡ tellings.after reading.old words.now) }
{
    if reading.tells_number(words) {
        return reading.read(alloc, words);
    }
    let place = place_at(places, reading.at.as_slice());
    reading.read(alloc, words)?;
    put_event(alloc, out, text, words, reading.alive.as_slice(), place)
}

/// The text of a run, told to people: each line that tells of the run, with the place of the line of the graph that made
/// it, the serial numbers that are alive then, and that line of the text.
///
/// # Errors
///
/// [`NoMemory`] where memory is wanted.
pub fn tell(
    alloc: Global,
    text: &[u8],
    places: &[Option<Pos>],
    run: &[u8],
) -> Result<Vec<u8>, NoMemory>
    ensures { IfOk result (λ out. out.items ≡ tellings.telling text.now places.now run.now) }
{
    let mut out = Vec::new(alloc);
    let mut reading = Reading::new(alloc);
    let mut rest = run;
    while 0 < rest.len() {
        put_line(
            alloc,
            &mut out,
            text,
            places,
            first_line(rest),
            &mut reading,
        )?;
        rest = behind_line(rest);
    }
    Ok(out)
}
