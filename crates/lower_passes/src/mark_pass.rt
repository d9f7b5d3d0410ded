//! Marks at words, each by those before it.
ghost use Rattle.std.specs.Prelude.{◌≡◌, [], ◌-◌, ◌++◌, take, drop, IfOk, OnOk, length, map};
ghost use Rattle.lower_rules.specs.Build.{is_left_by, breaks_from, names as names_loop, outside as outside_loop};
ghost use Rattle.lower_passes.specs.Framed.{frame_of};
ghost use Rattle.lower_code.specs.Code as plain;
ghost use Rattle.lower_code.specs.Ops.{onto};
ghost use Rattle.lower_code.specs.View.{exit_of, op_of, ops_of};
ghost use Rattle.lower_passes.specs.MarkRules as rules;
ghost use Rattle.lower_passes.specs.MarkRules.{marking_of};
ghost use Rattle.lower_passes.specs.Spans.{Stands};

use crate::{CodeMark, LoweringFrame, is_last};
use lower_code::{Code, CodeWord, Exit};
use mir_base::{List, NoMemory, NodeId};
use std::alloc::Global;

/// The marks so far, and the jumps out of the code before.
#[derive(Drop)]
pub struct CodeMarks {
    pub marks: List<CodeMark>,
    pub jumps: List<Exit>,
}

/// The mark at a word.
pub(crate) fn mark_at(marks: &[CodeMark], end: usize) -> CodeMark
    ensures { result ≡ rules.mark_at marks.now end }
{
    match marks.get(end) {
        Some(mark) => *mark,
        None => CodeMark {
            start: 0,
            jumps: 0,
            has_end: false,
            arms: 0,
        },
    }
}

/// Whether a `break` of the loop is among jumps.
fn is_left(jumps: &[Exit], id: NodeId) -> bool
    ensures { result ≡ is_left_by id.0 (map exit_of jumps.now) }
{
    for exit in jumps {
        if breaks(*exit, id) {
            return true;
        }
    }
    false
}

/// Whether a jump is a `break` of the loop.
fn breaks(exit: Exit, id: NodeId) -> bool
    ensures { result ≡ breaks_from id.0 (exit_of exit) }
{
    match exit {
        Exit::Breaks(from) => id == from,
        Exit::Continues(_) | Exit::Returns => false,
    }
}

/// Whether a jump names the loop.
fn names(exit: Exit, id: NodeId) -> bool
    ensures { result ≡ names_loop id.0 (exit_of exit) }
{
    match exit {
        Exit::Breaks(of) | Exit::Continues(of) => id == of,
        Exit::Returns => false,
    }
}

/// The jumps that do not name the loop.
fn outside(alloc: Global, jumps: &[Exit], id: NodeId) -> Result<List<Exit>, NoMemory>
    ensures { IfOk result (λ others. map exit_of others ≡ outside_loop id.0 (map exit_of jumps.now)) }
{
    let mut others = List::new(alloc);
    for exit in jumps {
        if !names(*exit, id) {
            others.push(*exit)?;
        }
    }
    Ok(others)
}

/// The jumps behind so many.
fn behind(jumps: &[Exit], count: usize) -> &[Exit]
    ensures { result.now ≡ drop count jumps.now }
{
    if count <= jumps.len() {
        &jumps[count..]
    } else {
        &[]
    }
}

impl CodeMarks {
    fn last(&self) -> CodeMark
        ensures { result ≡ rules.last (marking_of self.now) }
    {
        mark_at(self.marks.as_slice(), self.marks.len().saturating_sub(1))
    }

    fn first(&self) -> CodeMark
        ensures { result ≡ rules.first (marking_of self.now) }
    {
        mark_at(self.marks.as_slice(), self.last().start.saturating_sub(1))
    }

    /// The mark before a code with this mark.
    fn before(&self, mark: CodeMark) -> CodeMark
        ensures { result ≡ rules.mark_at self.now.marks (mark.start - 1) }
    {
        mark_at(self.marks.as_slice(), mark.start.saturating_sub(1))
    }

    /// The mark of code that is the next word alone.
    fn word(&self, has_end: bool) -> CodeMark
        ensures { result ≡ record { start = length self.now.marks; jumps = length self.now.jumps; has_end = has_end; arms = 0 } }
    {
        CodeMark {
            start: self.marks.len(),
            jumps: self.jumps.len(),
            has_end,
            arms: 0,
        }
    }

    fn leaf(&mut self, has_end: bool) -> Result<(), NoMemory>
        ensures { OnOk result (marking_of self.new ≡ rules.leaf has_end (marking_of self.old)) }
    {
        let mark = self.word(has_end);
        self.marks.push(mark)
    }

    fn leaves(&mut self, exit: Exit) -> Result<(), NoMemory>
        ensures { OnOk result (marking_of self.new ≡ rules.leaves (exit_of exit) (marking_of self.old)) }
    {
        self.leaf(false)?;
        match exit {
            Exit::Returns => Ok(()),
            Exit::Breaks(_) | Exit::Continues(_) => self.jumps.push(exit),
        }
    }

    fn around_one(&mut self) -> Result<(), NoMemory>
        ensures { OnOk result (marking_of self.new ≡ rules.around_one (marking_of self.old)) }
    {
        let last = self.last();
        self.marks.push(CodeMark { arms: 0, ..last })
    }

    /// No run comes to the last code where the one before it has no end, and so to none of its jumps.
    fn cut(&mut self, first: CodeMark, last: CodeMark)
        ensures same { self.new.marks ≡ self.old.marks }
        ensures jumps { map exit_of self.new.jumps ≡ rules.cut first.has_end last.jumps (map exit_of self.old.jumps) }
    {
        if !first.has_end {
            self.jumps.truncate(last.jumps);
        }
    }

    fn of_both(&mut self) -> Result<(), NoMemory>
        ensures { OnOk result (marking_of self.new ≡ rules.of_both (marking_of self.old)) }
    {
        let first = self.first();
        let last = self.last();
        self.cut(first, last);
        self.marks.push(CodeMark {
            has_end: first.has_end && last.has_end,
            arms: 0,
            ..first
        })
    }

    fn of_either(&mut self) -> Result<(), NoMemory>
        ensures { OnOk result (marking_of self.new ≡ rules.of_either (marking_of self.old)) }
    {
        let first = self.first();
        let last = self.last();
        self.marks.push(CodeMark {
            has_end: first.has_end || last.has_end,
            arms: 0,
            ..first
        })
    }

    /// The jumps that name the loop stay in it.
    fn leave_loop(&mut self, alloc: Global, id: NodeId, count: usize) -> Result<(), NoMemory>
        ensures { OnOk result ((self.new.marks ≡ self.old.marks) × (map exit_of self.new.jumps ≡
            take count (map exit_of self.old.jumps) ++ outside_loop id.0 (drop count (map exit_of self.old.jumps)))) }
    {
        let others = outside(alloc, behind(self.jumps.as_slice(), count), id)?;
        self.jumps.truncate(count);
        for exit in others.as_slice() {
            self.jumps.push(*exit)?;
        }
        Ok(())
    }

    fn around_loop(&mut self, alloc: Global, id: NodeId) -> Result<(), NoMemory>
        ensures { OnOk result (marking_of self.new ≡ rules.around_loop id.0 (marking_of self.old)) }
    {
        let last = self.last();
        let has_end = is_left(behind(self.jumps.as_slice(), last.jumps), id);
        self.leave_loop(alloc, id, last.jumps)?;
        self.marks.push(CodeMark {
            has_end,
            arms: 0,
            ..last
        })
    }

    fn before_arms(&mut self) -> Result<(), NoMemory>
        ensures { OnOk result (marking_of self.new ≡ rules.before_arms (marking_of self.old)) }
    {
        let mark = self.word(false);
        self.marks.push(CodeMark {
            arms: mark.start,
            ..mark
        })
    }

    fn arm_of_one(&mut self) -> Result<(), NoMemory>
        ensures { OnOk result (marking_of self.new ≡ rules.arm_of_one (marking_of self.old)) }
    {
        let last = self.last();
        let before = self.before(last);
        self.marks.push(arm_behind(before, last.has_end, last))
    }

    fn arm_of_two(&mut self) -> Result<(), NoMemory>
        ensures { OnOk result (marking_of self.new ≡ rules.arm_of_two (marking_of self.old)) }
    {
        let first = self.first();
        let last = self.last();
        let before = self.before(first);
        self.cut(first, last);
        self.marks
            .push(arm_behind(before, first.has_end && last.has_end, first))
    }

    fn empty_arm(&mut self) -> Result<(), NoMemory>
        ensures { OnOk result (marking_of self.new ≡ rules.empty_arm (marking_of self.old)) }
    {
        let before = self.last();
        let mark = self.word(true);
        self.marks.push(arm_behind(before, true, mark))
    }

    fn of_arms(&mut self) -> Result<(), NoMemory>
        ensures { OnOk result (marking_of self.new ≡ rules.of_arms (marking_of self.old)) }
    {
        let last = self.last();
        let begin = mark_at(self.marks.as_slice(), last.arms);
        self.marks.push(CodeMark {
            start: last.arms,
            jumps: begin.jumps,
            has_end: last.has_end,
            arms: 0,
        })
    }
}

/// The mark of an arm, by that of what stands before it and that of its own code.
fn arm_behind(before: CodeMark, has_end: bool, own: CodeMark) -> CodeMark
    ensures { result ≡ rules.arm_behind before has_end own }
{
    CodeMark {
        has_end: before.has_end || has_end,
        arms: before.arms,
        ..own
    }
}

/// The mark at one more word.
fn mark(
    alloc: Global,
    frame: LoweringFrame,
    word: &CodeWord,
    marks: &mut CodeMarks,
) -> Result<(), NoMemory>
    ensures { OnOk result (marking_of marks.new ≡ rules.marked (frame_of frame.entry) (op_of word.now) (marking_of marks.old)) }
{
    match word {
        CodeWord::Acts { action, .. } => {
            let last = is_last(alloc, frame, action)?;
            marks.leaf(!last)
        }
        CodeWord::From(_) | CodeWord::BackIn | CodeWord::InScope { .. } => marks.around_one(),
        CodeWord::Then => marks.of_both(),
        CodeWord::Branches { .. } => marks.of_either(),
        CodeWord::Loops(id) => marks.around_loop(alloc, *id),
        CodeWord::Exits { exit, .. } => marks.leaves(*exit),
        CodeWord::Panics { .. } => marks.leaf(false),
        CodeWord::BeforeArms => marks.before_arms(),
        CodeWord::Arm { guard: None, .. } => marks.arm_of_one(),
        CodeWord::Arm { guard: Some(_), .. } => marks.arm_of_two(),
        CodeWord::EmptyArm => marks.empty_arm(),
        CodeWord::Matches(_) => marks.of_arms(),
        CodeWord::Nothing
        | CodeWord::Changes(_)
        | CodeWord::Leaves
        | CodeWord::Replaces { .. }
        | CodeWord::Drops(_) => { marks.leaf(true) }
    }
}

/// The marks at all words of the code of a body. It takes memory and time by the words, and for each loop by the jumps
/// in it that name other loops.
///
/// # Errors
///
/// [`NoMemory`] where memory is wanted.
pub fn marks_of(
    alloc: Global,
    frame: LoweringFrame,
    code: &Code,
) -> Result<List<CodeMark>, NoMemory>
    ensures { IfOk result (λ marks. (c : plain.Code) → ops_of code.now ≡ onto c [] →
        Stands (frame_of frame.entry) (map op_of code.now.ops) marks c 0 (length code.now.ops - 1)) }
{
    let mut marks = CodeMarks {
        marks: List::from_vec(Vec::with_capacity(alloc, code.ops.len())?),
        jumps: List::new(alloc),
    };
    for word in code.ops.as_slice() {
        mark(alloc, frame, word, &mut marks)?;
    }
    let CodeMarks { marks, .. } = marks;
    Ok(marks)
}
