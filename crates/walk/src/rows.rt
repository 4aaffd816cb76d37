// Rows of two numbers: the stacks that the first pass found, one row for each place.
ghost use Rattle.std.specs.Prelude.{◌≡◌, ◌&&◌, eqb};
ghost use Rattle.walk.specs.CodeRows.{row_at, same_row, row_carries};

use units::Quadwords;

// A stack in two numbers: `marks` frames M over the frame of the loop that starts before `top`, over nothing where `top` is 0. That is no Option:
// a loop is numbered from 1 on so, and the definitions have a row as two numbers (specs/CodeRows.antt).
#[derive(Clone, Copy, Debug, PartialEq, Eq)]
pub struct Row {
    pub top: Quadwords,
    pub marks: usize,
}

impl Row {
    // The empty stack.
    pub const EMPTY: Row = Row {
        top: Quadwords(0),
        marks: 0,
    };
}

// The row of a place; the empty stack behind the last row.
pub(crate) fn row_at(rows: &[Row], place: Quadwords) -> Row
    ensures { result ≡ row_at rows.now place.0 }
{
    rows.get(place.0).copied().unwrap_or(Row::EMPTY)
}

// Whether the stack at `place`, with `pops` frames M fewer, stood at the target.
#[tactic(auto, unfolding(crate::specs::CodeRows::row_carries, crate::specs::CodeRows::same_row))]
pub(crate) fn is_carried(rows: &[Row], place: Quadwords, pops: usize, target: Quadwords) -> bool
    ensures { result ≡ row_carries rows.now place.0 pops target.0 }
{
    let Row { top, marks } = row_at(rows, place);
    match marks.checked_sub(pops) {
        Some(marks) => row_at(rows, target) == Row { top, marks },
        None => false,
    }
}
