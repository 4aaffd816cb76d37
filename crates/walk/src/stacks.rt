// Rule 19: the stack that a "yes" carries, and the two ends of a loop.
ghost use Rattle.std.specs.Prelude.{◌≡◌, suc, eqb};
ghost use Rattle.walk.specs.CodeRows.{row_else, row_ends, row_starts, row_back, row_differs};
ghost use Rattle.walk.specs.Flow.{flow_at};

use crate::Flow;
use crate::rows::{Row, is_carried, row_at};
use crate::targets::is_loop_end_at;
use opcodes::cf::Branch;
use units::Quadwords;

// Whether `place` is the next one behind p.
fn is_next(p: Quadwords, place: Quadwords) -> bool
    ensures { result ≡ eqb (suc p.0) place.0 }
{
    p.0.checked_add(1) == Some(place.0)
}

// ELSE needs M on top.
#[tactic(auto, unfolding(crate::specs::CodeRows::row_else))]
fn else_carried(rows: &[Row], p: Quadwords, pops: usize, target: Quadwords) -> bool
    ensures { result ≡ row_else rows.now p.0 pops target.0 }
{
    row_at(rows, p).marks != 0 && is_carried(rows, p, pops, target)
}

// Whether a LOOP_END stands at `place`, with the frame of the loop that starts at p on top.
#[tactic(auto, unfolding(crate::specs::CodeRows::row_ends, crate::specs::CodeRows::same_row))]
fn ends_loop(words: &[u32], rows: &[Row], p: Quadwords, place: Quadwords) -> bool
    ensures { result ≡ row_ends (flow_at words.now) rows.now p.0 place.0 }
{
    let row = row_at(rows, place);
    is_loop_end_at(words, place) && is_next(p, row.top) && row.marks == 0
}

// A LOOP_START at p goes to just behind its LOOP_END. No target that rule 18 lets pass is 0.
#[tactic(auto, unfolding(crate::specs::CodeRows::row_starts))]
fn starts_loop(words: &[u32], rows: &[Row], p: Quadwords, target: Quadwords) -> bool
    ensures { result ≡ row_starts (flow_at words.now) rows.now p.0 target.0 }
{
    is_carried(rows, p, 0, target) && ends_loop(words, rows, p, units::quadword_before(target))
}

// A LOOP_END at p goes to just behind its LOOP_START, whose frame is on top here and there.
#[tactic(auto, unfolding(crate::specs::CodeRows::row_back, crate::specs::CodeRows::same_row))]
fn goes_back(rows: &[Row], p: Quadwords, target: Quadwords) -> bool
    ensures { result ≡ row_back rows.now p.0 target.0 }
{
    let Row { top, marks } = row_at(rows, p);
    marks == 0 && top.0 != 0 && target == top && row_at(rows, target) == Row { top, marks }
}

// Rule 19 at p, where `flow` stands.
#[tactic(auto, unfolding(crate::specs::CodeRows::row_differs))]
pub(crate) fn differ(words: &[u32], flow: Flow, p: Quadwords, rows: &[Row]) -> bool
    ensures { result ≡ row_differs (flow_at words.now) rows.now p.0 flow }
{
    let Flow::Branch { kind, pops, target } = flow else {
        return false;
    };
    match kind {
        Branch::LoopEnd => !goes_back(rows, p, target),
        Branch::LoopStart => !starts_loop(words, rows, p, target),
        Branch::BreakOrContinue | Branch::Jump | Branch::Pop => {
            !is_carried(rows, p, pops, target)
        }
        Branch::Else => !else_carried(rows, p, pops, target),
    }
}
