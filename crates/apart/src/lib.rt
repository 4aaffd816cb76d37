// Rule 22: a fetch clause starts at an even quadword, and two clauses are either the same range or disjoint (document 02, request 4).
//
// Clauses mostly come in the order of their openers. Then each starts at or behind the end of all before it, which is one comparison; and it is as
// plain where one is the highest of them once more. At the first that is neither the pairs are looked at again, with a mark to each quadword
// (`marks`), and the first whose clause is not apart from those before is known from then on. So most packs have no marks, and in any other each
// quadword is marked once.
#![tactic(auto)]

mod marks;

ghost use Rattle.std.specs.Prelude.{◌≡◌};
ghost use Rattle.apart.specs.Apart.{odd_fetch};
ghost use Rattle.apart.specs.Code.{SeenWith, none_seen, is_clear, up_to, names};

use section::Clause;
use units::Quadwords;

// What is known of the clauses that are opened so far. As long as each lies behind those before it, or is the highest once more: the quadword
// behind them all, and where the highest starts. Then the first place of the section whose clause is not apart from those before it.
// (Two states that each know something: an Option would take the one for the lack of the other.)
#[derive(Clone, Copy, Debug, PartialEq, Eq)]
pub enum Seen {
    Rising {
        behind: Quadwords,
        highest: Quadwords,
    },
    Asked(Quadwords),
}

// Before the first clause.
pub fn none_seen() -> Seen
    ensures { result ≡ none_seen }
{
    Seen::Rising {
        behind: Quadwords(0),
        highest: Quadwords(0),
    }
}

// A fetch clause that starts at an odd quadword.
#[tactic(auto, unfolding(crate::specs::Apart::odd_fetch))]
pub fn is_odd_fetch(clause: Option<Clause>) -> bool
    ensures { result ≡ odd_fetch clause }
{
    match clause {
        Some(Clause::Fetch { start, .. }) => start.0 % 2 == 1,
        Some(Clause::Alu { .. }) | None => false,
    }
}

// What is known with one clause more, in a section that ends at pair `end`. (The two kinds part here, though both arms
// are alike: of `Clause::range` for either the compiler makes a choice of numbers, for which each pair of a section waits.)
pub fn seen_with(words: &[u32], end: Quadwords, seen: Seen, clause: Option<Clause>) -> Seen
    ensures { SeenWith words.now end.0 clause seen result }
{
    let Some(clause) = clause else {
        return seen;
    };
    match clause {
        Clause::Alu { .. } => {
            let range = clause.range();
            let behind = units::range_end(range.start, range.size);
            if is_clear(seen, range.start, behind) {
                return up_to(seen, range.start, behind);
            }
            Seen::Asked(marks::first_not_apart(words, end))
        }
        Clause::Fetch { .. } => {
            let range = clause.range();
            let behind = units::range_end(range.start, range.size);
            if is_clear(seen, range.start, behind) {
                return up_to(seen, range.start, behind);
            }
            Seen::Asked(marks::first_not_apart(words, end))
        }
    }
}

// Whether a range needs no search.
fn is_clear(seen: Seen, start: Quadwords, end: Quadwords) -> bool
    ensures { result ≡ is_clear seen start end }
{
    match seen {
        Seen::Rising { behind, highest } => behind <= start || highest == start && behind == end,
        Seen::Asked(_) => true,
    }
}

// With such a range more: it is the highest.
fn up_to(seen: Seen, start: Quadwords, end: Quadwords) -> Seen
    ensures { result ≡ up_to seen start end }
{
    match seen {
        Seen::Rising { .. } => Seen::Rising {
            behind: end,
            highest: start,
        },
        Seen::Asked(place) => Seen::Asked(place),
    }
}

// Whether the place is the one that is known not to be apart.
pub fn names(seen: Seen, place: Quadwords) -> bool
    ensures { result ≡ names seen place }
{
    match seen {
        Seen::Rising { .. } => false,
        Seen::Asked(first) => first == place,
    }
}
