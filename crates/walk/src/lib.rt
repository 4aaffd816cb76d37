// Control flow: what a pair of the section does to the stack, and rules 16 to 19 of document 01, "The walk".
//
// The first pass keeps the stack before each place as two numbers, a row: under a loop's frame L(q) always lies the stack that
// stood at q, so the innermost loop and the marks above it say the whole stack, and two stacks are the same exactly if their
// rows are. Popping a loop reads the row of its start. specs/Flow.antt has the stacks as lists of frames; proofs/OfFollow.antt
// and proofs/OfSecond.antt say that the rows are as good.
//
// Every place here is a control-flow quadword, counted from 0.
#![tactic(auto)]

ghost use Rattle.std.specs.Prelude.{◌≡◌, ◌-◌, cond};
ghost use Rattle.opcodes.specs.declared.cf.Control.TheVariants as controls;
ghost use Rattle.checks.specs.Checks.{first_broken, below};
ghost use Rattle.walk.specs.Flow.{flow_of, flow_at};
ghost use Rattle.walk.specs.CodeRows.{followed, row_checks};
ghost use Rattle.walk.specs.declared.Flow.TheVariants as flows;

use bits::read;
use checks::{Place, Refusal, Verdict};
use formats::fields;
use opcodes::cf::{Branch, Control};
use units::Quadwords;

mod rows;
mod stacks;
mod steps;
mod targets;

pub use rows::Row;

// What a pair does to the stack and where it goes; `pops` is POP_COUNT, `target` is ADDR.
#[derive(Clone, Copy)]
pub enum Flow {
    Still,
    PushMark,
    PopMarks(usize),
    Branch {
        kind: Branch,
        pops: usize,
        target: Quadwords,
    },
}

// A stack: its row, and how many frames it has in all.
#[derive(Clone, Copy, Debug, PartialEq, Eq)]
pub struct Frames {
    pub row: Row,
    pub depth: usize,
}

// Rule 16: a frame that is needed is missing, or there is no room for one more.
#[derive(Clone, Copy, Debug, PartialEq, Eq)]
pub enum StackFault {
    Lacks,
    TooDeep,
}

// What a pair does, by what it is and by its words.
#[tactic(auto, unfolding(crate::specs::Flow::flow_of))]
pub fn flow_of(control: Control, low: u32, high: u32) -> Flow
    ensures { result ≡ flow_of control low high }
{
    match control {
        Control::NotTaken | Control::Nop | Control::Fetch(_) | Control::Export => Flow::Still,
        Control::Branch(kind) => branch_of(kind, low, high),
        Control::Alu {
            pushes: true,
            pops: _,
        } => Flow::PushMark,
        // ALU pops none: it leaves the stack as it is.
        Control::Alu {
            pushes: false,
            pops,
        } => Flow::PopMarks(pops),
    }
}

#[tactic(auto, unfolding(crate::specs::Flow::flow_of))]
fn branch_of(kind: Branch, low: u32, high: u32) -> Flow
    ensures { result ≡ flow_of (controls.Branch kind) low high }
{
    Flow::Branch {
        kind,
        pops: read(high, fields::POP_COUNT) as usize,
        target: Quadwords(read(low, fields::ADDR) as usize),
    }
}

// The first pass at a place: the step on "no", and whether either answer lacks a frame. `behind` is the next place, `s` the stack
// before this one, and the rows are those of the places before.
#[tactic(auto, unfolding(crate::specs::CodeRows::followed))]
pub fn follow(
    flow: Flow,
    behind: Quadwords,
    limit: usize,
    s: Frames,
    rows: &[Row],
) -> Result<Frames, StackFault>
    ensures { result ≡ followed limit flow behind.0 s rows.now }
{
    match flow {
        Flow::Still => Ok(s),
        Flow::PushMark => s.push_mark(limit),
        Flow::PopMarks(pops) => s.pop_marks(pops),
        Flow::Branch { kind, pops, .. } => match kind {
            Branch::LoopEnd => s.end_loop(rows),
            Branch::LoopStart => s.enter_loop(limit, behind),
            Branch::BreakOrContinue | Branch::Jump => s.need_marks(pops),
            Branch::Else => s.need_top_mark(pops),
            Branch::Pop => s.pop_marks(pops),
        },
    }
}

// The second pass over a section of so many pairs, whose rows the first pass has filled: the first broken check of rules 18 and
// 19.
pub fn second_pass(words: &[u32], pairs: Quadwords, rows: &[Row]) -> Verdict
    ensures { result ≡ first_broken (below (row_checks (flow_at words.now) (pairs.0 - 1) rows.now) pairs.0) }
{
    let end = units::quadword_before(pairs);
    for p in 0..pairs.0 {
        pair_verdict(words, end, Quadwords(p), rows)?;
    }
    Ok(())
}

#[tactic(auto, unfolding(checks::specs::Checks::first_broken, crate::specs::CodeRows::row_checks, crate::specs::CodeRows::row_stack, crate::specs::Rules::bad_target))]
fn pair_verdict(words: &[u32], end: Quadwords, p: Quadwords, rows: &[Row]) -> Verdict
    ensures { result ≡ first_broken (row_checks (flow_at words.now) end.0 rows.now p.0) }
{
    let flow = targets::flow_at(words, p);
    if targets::is_wrong(words, flow, end, p) {
        return Err(Refusal::of_place(18, Place::Quadword(p)));
    }
    if stacks::differ(words, flow, p, rows) {
        return Err(Refusal::of_place(19, Place::Quadword(p)));
    }
    Ok(())
}
