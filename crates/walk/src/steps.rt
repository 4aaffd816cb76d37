// The first pass's steps on a stack of two numbers. No number is taken below 0 or past the card's stack: where the numbers do
// not say a stack, which the first pass never lets happen, a step that would is refused.
ghost use Rattle.std.specs.Prelude.{◌≡◌};
ghost use Rattle.walk.specs.CodeRows.{pushed, entered, popped, needing, needing_top, ended};

use crate::rows::{Row, row_at};
use crate::{Frames, StackFault};
use units::Quadwords;

impl Frames {
    // One M more.
    #[tactic(auto, unfolding(crate::specs::CodeRows::pushed))]
    pub(crate) fn push_mark(self, limit: usize) -> Result<Frames, StackFault>
        ensures { result ≡ pushed limit self }
    {
        let Frames { row, depth } = self;
        if depth >= limit || row.marks >= limit {
            return Err(StackFault::TooDeep);
        }
        Ok(Frames {
            row: Row {
                top: row.top,
                marks: row.marks + 1,
            },
            depth: depth + 1,
        })
    }

    // The frame of the loop that starts before `behind`.
    #[tactic(auto, unfolding(crate::specs::CodeRows::entered))]
    pub(crate) fn enter_loop(self, limit: usize, behind: Quadwords) -> Result<Frames, StackFault>
        ensures { result ≡ entered limit behind.0 self }
    {
        if self.depth >= limit {
            return Err(StackFault::TooDeep);
        }
        Ok(Frames {
            row: Row {
                top: behind,
                marks: 0,
            },
            depth: self.depth + 1,
        })
    }

    // `pops` frames M fewer.
    #[tactic(auto, unfolding(crate::specs::CodeRows::popped))]
    pub(crate) fn pop_marks(self, pops: usize) -> Result<Frames, StackFault>
        ensures { result ≡ popped pops self }
    {
        let Frames { row, depth } = self;
        if row.marks < pops || depth < pops {
            return Err(StackFault::Lacks);
        }
        Ok(Frames {
            row: Row {
                top: row.top,
                marks: row.marks - pops,
            },
            depth: depth - pops,
        })
    }

    // A "yes" would pop `pops` frames M; a "no" leaves the stack as it is.
    #[tactic(auto, unfolding(crate::specs::CodeRows::needing))]
    pub(crate) fn need_marks(self, pops: usize) -> Result<Frames, StackFault>
        ensures { result ≡ needing pops self }
    {
        if self.row.marks < pops {
            return Err(StackFault::Lacks);
        }
        Ok(self)
    }

    // The same, with M on top either way.
    #[tactic(auto, unfolding(crate::specs::CodeRows::needing_top))]
    pub(crate) fn need_top_mark(self, pops: usize) -> Result<Frames, StackFault>
        ensures { result ≡ needing_top pops self }
    {
        if self.row.marks == 0 {
            return Err(StackFault::Lacks);
        }
        self.need_marks(pops)
    }

    // The innermost loop's frame fewer: below it lies what stood at the loop's start.
    #[tactic(auto, unfolding(crate::specs::CodeRows::ended))]
    pub(crate) fn end_loop(self, rows: &[Row]) -> Result<Frames, StackFault>
        ensures { result ≡ ended self rows.now }
    {
        let Frames { row, depth } = self;
        if row.marks != 0 || row.top.0 == 0 || depth == 0 {
            return Err(StackFault::Lacks);
        }
        Ok(Frames {
            row: row_at(rows, units::quadword_before(row.top)),
            depth: depth - 1,
        })
    }
}
