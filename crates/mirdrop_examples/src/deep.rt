//! Values that are deep, at paths as long, and runs of graphs that are long or deep, over a sink that keeps nothing.
ghost use Rattle.std.specs.Prelude.{None};

use mir_base::{End, List, NoMemory};
use mir_edge::{Fault, Sink};
use mir_machine::run;
use mir_text::read_listing;
use std::alloc::Global;
use store_model::{At, AtPath, Value, put, read, take};

/// So many boxes in one another.
const DEEP: u32 = 1_000_000;

fn box_around(alloc: Global, inside: Value) -> Result<Value, NoMemory> {
    Ok(Value::Boxed {
        serial: 1,
        impl_no: None,
        inside: Box::new(alloc, inside)?,
    })
}

fn boxes(alloc: Global, first: Value) -> Result<Value, NoMemory> {
    let mut value = first;
    for _ in 0..DEEP {
        value = box_around(alloc, value)?;
    }
    Ok(value)
}

/// A chain of boxes, each the last part of an aggregate of two, or the first.
fn pairs(alloc: Global, last: bool) -> Result<Value, NoMemory> {
    let mut value = Value::Unit;
    for _ in 0..DEEP {
        let inner = box_around(alloc, value)?;
        let parts = if last {
            vec![in alloc; Value::Int(0), inner]?
        } else {
            vec![in alloc; inner, Value::Int(0)]?
        };
        value = Value::Parts {
            variant: 1,
            serial: None,
            parts: List::from_vec(parts),
        };
    }
    Ok(value)
}

fn all_dropped(alloc: Global) -> Result<(), NoMemory> {
    drop(boxes(alloc, Value::Unit)?);
    drop(pairs(alloc, true)?);
    drop(pairs(alloc, false)?);
    Ok(())
}

/// Values as deep are dropped.
pub fn drop_deep_values(alloc: Global) -> Option<usize> {
    match all_dropped(alloc) {
        Ok(()) => None,
        Err(NoMemory) => Some(0),
    }
}

fn path_to_content(alloc: Global) -> Result<AtPath, NoMemory> {
    let mut path = AtPath::new(alloc);
    for _ in 0..DEEP {
        path.push(At::Inside)?;
    }
    Ok(path)
}

/// Whether what stands at a path is read, taken and put again.
fn is_walked(value: &mut Value, path: &[At]) -> bool {
    matches!(read(value, path), Some(Value::Int(5)))
        && take(value, path).is_some()
        && put(value, path, Value::Unit).is_ok()
}

fn is_content_walked(alloc: Global) -> Result<bool, NoMemory> {
    let path = path_to_content(alloc)?;
    let mut value = boxes(alloc, Value::Int(5))?;
    let walked = is_walked(&mut value, path.as_slice());
    drop(value);
    Ok(walked)
}

/// The content of all boxes is read, taken and put again.
pub fn walk_deep_values(alloc: Global) -> Option<usize> {
    match is_content_walked(alloc) {
        Ok(true) => None,
        _ => Some(0),
    }
}

const BOXES: u64 = 1000000;

/// A chain of boxes is made in a loop and dropped.
const CHAIN: &str = "mirdrop 1
enum DeepChain { End (), Link (Box<DeepChain>) }
body 0 main 0
local 0 ()
local 1 DeepChain
local 2 Box<DeepChain>
local 3 i32
local 4 bool
block 0 plain rank 3
_1 = make DeepChain 0 ()
_3 = const 0_i32
goto 1
block 1 turn rank 2
_4 = lt copy _3 const 1000000_i32
if copy _4 2 3
block 2 plain rank 0
_2 = box move _1
_1 = make DeepChain 1 (move _2)
_3 = add copy _3 const 1_i32 then 1 unwind resume
block 3 plain rank 1
drop _1 then 4 unwind resume
block 4 plain rank 0
_0 = const ()
return
end
";

const CALLS: u64 = 200000;

/// `f` calls itself with a number that is one greater, up to the greatest.
const NESTED: &str = "mirdrop 1
body 0 main 0
local 0 ()
block 0 plain rank 1
_0 = call 1 (const 1_i32) then 1 unwind resume
block 1 plain rank 0
return
body 1 f 1
local 0 ()
local 1 i32
local 2 bool
local 3 i32
block 0 plain rank 3
_2 = lt copy _1 const 200000_i32
if copy _2 1 3
block 1 plain rank 2
_3 = add copy _1 const 1_i32 then 2 unwind resume
block 2 plain rank 1
_0 = call 1 (copy _3) then 4 unwind resume
block 3 plain rank 0
_0 = const ()
return
block 4 plain rank 0
return
end
";

/// Counts lines, and remembers the longest piece.
#[derive(Drop)]
struct Counts {
    lines: u64,
    longest: usize,
}

fn line_ends(bytes: &[u8]) -> usize {
    bytes.iter().filter(|byte| **byte == b'\n').count()
}

impl Sink for Counts {
    ghost taken = { λ sink. None };

    ghost faults = { λ sink. 0 };

    fn write(&mut self, from: &[u8]) -> Result<usize, Fault> {
        self.lines = self.lines.saturating_add(line_ends(from) as u64);
        self.longest = self.longest.max(from.len());
        Ok(from.len())
    }
}

/// Whether the graph that a text lists returns, and writes so many lines in pieces of at most 8,192 bytes.
fn tells(alloc: Global, text: &str, lines: u64) -> bool {
    let Ok(graph) = read_listing(alloc, text.as_bytes()) else {
        return false;
    };
    let mut sink = Counts {
        lines: 0,
        longest: 0,
    };
    let end = run(alloc, &graph, &[], 1000000000, &mut sink);
    graph.discard();
    end == Ok(End::Returned) && sink.lines == lines && sink.longest <= 8192
}

/// A chain of boxes that is made in a loop and dropped, and nested calls that return.
pub fn graphs(alloc: Global) -> Option<usize> {
    if !tells(alloc, CHAIN, 2 * BOXES + 3) {
        return Some(0);
    }
    if !tells(alloc, NESTED, 2 * CALLS + 3) {
        return Some(1);
    }
    None
}
