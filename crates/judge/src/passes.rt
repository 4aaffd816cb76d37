// Both passes over the section of a pack.
ghost use Rattle.std.specs.Prelude.{◌≡◌, ◌<◌, ◌≤◌, suc, length};
ghost use Rattle.units.specs.Units.{high_word};
ghost use Rattle.checks.specs.Verdict.{Accepted};
ghost use Rattle.checks.specs.Checks.{first_broken, below};
ghost use Rattle.apart.specs.Code.{marked_in};
ghost use Rattle.walk.specs.CodeHeld.{Recorded};
ghost use Rattle.walk.specs.Flow.{flow_at};
ghost use Rattle.judge.specs.Judge.{first_checks, passes};

use crate::pairs::Pair;
use card::Card;
use checks::Verdict;
use units::Quadwords;
use walk::{Frames, Row};

// Most sections are short, and rows for a long one would cost more than judging them.
const SHORT: usize = 32;

// No section is longer: the end is looked for among so many pairs.
const LONG: usize = 512;

// The section of a pack whose card is in range and whose length is right: it ends at pair `end`.
#[derive(Clone, Copy)]
pub(crate) struct Section<'a> {
    pub(crate) card: Card,
    pub(crate) words: &'a [u32],
    pub(crate) end: Quadwords,
    // It lies in the words and is no longer than sections can be, and quads are no more than rule 22 has marks for.
    ghost in_buffer: { (high_word end).0 < length words.now },
    ghost among_512: { end.0 < 512 },
    ghost quads_marked: { card.quads.0 ≤ marked_in words.now },
}

// By value: behind a reference each pair would read the section anew, since the rows that are written might be it.
impl<'a> Section<'a> {
    // Both passes.
    pub(crate) fn verdict(self) -> Verdict
        ensures { result ≡ first_broken (passes self.entry.card self.entry.words.now self.entry.end.0) }
    {
        if self.end < Quadwords(SHORT) {
            return self.verdict_with_room::<SHORT>();
        }
        self.verdict_with_room::<LONG>()
    }

    // The same, with a row for each of so many places.
    fn verdict_with_room<const PLACES: usize>(self) -> Verdict
        requires room { self.end.0 < PLACES }
        requires few { PLACES ≤ 512 }
        ensures { result ≡ first_broken (passes self.entry.card self.entry.words.now self.entry.end.0) }
    {
        let mut rows = [Row::EMPTY; PLACES];
        self.verdict_with(&mut rows)
    }

    fn verdict_with(self, rows: &mut [Row]) -> Verdict
        requires { self.end.0 < length rows.old }
        ensures { result ≡ first_broken (passes self.entry.card self.entry.words.now self.entry.end.0) }
    {
        self.first_pass(rows)?;
        walk::second_pass(self.words, units::quadword_behind(self.end), rows)
    }

    // Rules 4 to 17 and 22, places rising. The rows of all places are left for the second pass.
    fn first_pass(self, rows: &mut [Row]) -> Verdict
        requires { self.end.0 < length rows.old }
        ensures value { result ≡ first_broken (below (first_checks self.entry.card self.entry.words.now self.entry.end.0) (suc self.entry.end.0)) }
        ensures recorded { result ≡ Accepted → Recorded (flow_at self.entry.words.now) (suc self.entry.end.0) rows.new }
    {
        let mut s = Frames {
            row: Row::EMPTY,
            depth: 0,
        };
        let mut seen = apart::none_seen();
        for p in 0..self.end.0 + 1 {
            let pair = Pair::read(&self, Quadwords(p));
            seen = apart::seen_with(self.words, self.end, seen, pair.clause);
            let ahead = pair.pass(seen, s, rows)?;
            rows[p] = s.row;
            s = ahead;
        }
        Ok(())
    }
}
