//! Trees and items of texts.
use mir_base::{Event, List};
use mir_pipeline::read_tree;
use mir_ty::{Items, event_line};
use name_table::collect;
use src_parse::parse;
use src_token::{Spanned, Token, end_of, lex};
use src_tree::{Tree, depth, is_levelled, spell};
use std::alloc::{AllocError, Global};
use vtable_rows::rows;

/// Whether a text has a tree.
pub fn has_tree(alloc: Global, text: &[u8]) -> bool {
    text.len() < 200_000 && read_tree(alloc, text).is_ok()
}

/// Whether the type of the first parameter of the first body needs dropping.
fn first_drops(items: &Items) -> Option<bool> {
    let id = items.body_sig(0)?.params.get(0)?;
    Some(items.needs_drop(*id))
}

fn has_rows(alloc: Global, items: &Items) -> bool {
    rows(alloc, items).is_ok()
}

fn has_line(alloc: Global, items: &Items) -> bool {
    event_line(alloc, &Event::Asked(7), items).is_ok()
}

/// What is asked of the items of a text that has some.
#[derive(Clone, Copy)]
struct Facts {
    /// Whether the rows of its impls and the line of an event can be made.
    has_rows: bool,
    /// Whether the type of the first parameter of its first body needs dropping.
    first_drops: Option<bool>,
}

fn facts_of(alloc: Global, items: &Items) -> Facts {
    Facts {
        has_rows: has_rows(alloc, items) && has_line(alloc, items),
        first_drops: first_drops(items),
    }
}

fn items_facts(alloc: Global, tree: &Tree) -> Option<Facts> {
    let items = collect(alloc, tree).ok()?;
    let facts = facts_of(alloc, &items);
    drop(items);
    Some(facts)
}

fn text_facts(alloc: Global, text: &[u8]) -> Option<Facts> {
    if text.len() > 200_000 {
        return None;
    }
    let tree = read_tree(alloc, text).ok()?;
    let facts = items_facts(alloc, &tree);
    drop(tree);
    facts
}

/// Whether a text has items, and the rows of their impls and the line of an event can be made.
pub fn has_items(alloc: Global, text: &[u8]) -> bool {
    match text_facts(alloc, text) {
        Some(facts) => facts.has_rows,
        None => false,
    }
}

fn is_spelled_at(tokens: &List<Spanned>, spelled: &List<Token>, at: usize) -> bool {
    match (tokens.get(at), spelled.get(at)) {
        (Some(spanned), Some(token)) => spanned.token == *token,
        _ => false,
    }
}

/// Whether these are the tokens of a text.
fn are_spelled(tokens: &List<Spanned>, spelled: &List<Token>) -> bool {
    for at in 0..tokens.len() {
        if !is_spelled_at(tokens, spelled, at) {
            return false;
        }
    }
    tokens.len() == spelled.len()
}

/// Whether a text has so many tokens, and its tree is levelled, nested so deep and spells them.
fn is_spelled_back(alloc: Global, text: &[u8], count: u32, deepest: u32) -> Option<bool> {
    if text.len() > 200_000 {
        return None;
    }
    let tokens = lex(alloc, text).ok()?;
    if tokens.len() != count as usize {
        return None;
    }
    let tree = parse(alloc, tokens.as_slice(), end_of(text)).ok()?;
    let stands = is_levelled(&tree) && depth(&tree) == deepest;
    let spelled = spell(alloc, &tree);
    drop(tree);
    Some(stands && are_spelled(&tokens, &spelled.ok()?))
}

/// The trees of `fn main() {}` and of the job queue.
pub fn spelled_back(alloc: Global, queue: &[u8]) -> Option<usize> {
    if is_spelled_back(alloc, b"fn main() {}", 6, 2) != Some(true) {
        return Some(0);
    }
    if is_spelled_back(alloc, queue, 474, 10) != Some(true) {
        return Some(1);
    }
    None
}

/// 1,500 structs, each with two fields of the one before it, or of the one behind it where `ahead` is set; and first
/// of all a function `f`, whose parameter is of the struct that stands on all others.
fn chain(alloc: Global, ahead: bool) -> Result<String, AllocError> {
    let mut text = String::new(alloc);
    text.push_str(if ahead {
        "fn f(x: S0) {} fn main() {} struct S1500; impl Drop for S1500 { fn drop(&mut self) {} }"
    } else {
        "fn f(x: S1500) {} fn main() {} struct S0(i32);"
    })?;
    let mut last = 0;
    for n in 1..1501u32 {
        let (of, fields) = if ahead { (last, n) } else { (n, last) };
        write!(text, "struct S{of}(S{fields}, S{fields});")?;
        last = n;
    }
    Ok(text)
}

/// Whether the struct that stands on all others of a chain needs dropping.
fn chain_drops(alloc: Global, ahead: bool) -> Result<Option<bool>, AllocError> {
    let text = chain(alloc, ahead)?;
    let facts = text_facts(alloc, text.as_bytes());
    drop(text);
    Ok(match facts {
        Some(facts) => facts.first_drops,
        None => None,
    })
}

/// Chains in which nothing needs dropping, and in which all structs do for the last one's sake.
pub fn long_chains(alloc: Global) -> Result<Option<usize>, AllocError> {
    if chain_drops(alloc, false)? != Some(false) {
        return Ok(Some(0));
    }
    if chain_drops(alloc, true)? != Some(true) {
        return Ok(Some(1));
    }
    Ok(None)
}
