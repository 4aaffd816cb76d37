// The search for a clause that is not apart from those before it: a mark to each quadword (specs/Code.antt, "marks").
ghost use Rattle.std.specs.Prelude.{◌≡◌, ◌+◌, ◌≤◌, ◌<◌, length};
ghost use Rattle.section.specs.Rules.{clause_at};
ghost use Rattle.apart.specs.Code.{FirstUnfit, FirstNotApart, Claimed, Found, quadwords_in};

use section::{Clause, Range};
use units::{Quadwords, Words};

// No pack has more quadwords.
const MOST_QUADWORDS: usize = 8192;

// The first place, in a section that ends at pair `end`, whose clause is not apart from those before it or does not lie in the words; the
// place behind the section where there is none (no Option: `FirstNotApart` says both of one number). Few packs are long, and clearing the marks
// of a long one costs more than judging a short one.
// Few packs come here at all, so that it stays out of the judge's loop over pairs, and its marks off the stack there.
#[cold]
#[inline(never)]
pub(crate) fn first_not_apart(words: &[u32], end: Quadwords) -> Quadwords
    ensures { FirstNotApart words.now end.0 result.0 }
{
    let whole = units::whole_quadwords(Words(words.len()));
    let pairs = units::quadword_behind(end).min(whole);
    let marked = whole.min(Quadwords(MOST_QUADWORDS));
    if marked <= Quadwords(512) {
        return first_unfit::<512>(words, pairs, marked);
    }
    first_unfit::<MOST_QUADWORDS>(words, pairs, marked)
}

// Place by place, with the marks of the clauses before it.
fn first_unfit<const ROOM: usize>(words: &[u32], pairs: Quadwords, limit: Quadwords) -> Quadwords
    requires in_words { pairs.0 ≤ quadwords_in words.now }
    requires room { (limit.0 ≤ ROOM) × (ROOM ≤ 8192) }
    ensures { FirstUnfit limit.0 (clause_at words.now) pairs.0 result.0 }
{
    let mut marks = [0u8; ROOM];
    for p in 0..pairs.0 {
        let Some(clause) = clause_at(words, Quadwords(p)) else {
            continue;
        };
        if is_unfit(clause.range(), limit, &mut marks) {
            return Quadwords(p);
        }
    }
    pairs
}

// The clause that the pair at p opens.
fn clause_at(words: &[u32], p: Quadwords) -> Option<Clause>
    requires { p.0 < quadwords_in words.now }
    ensures { result ≡ clause_at words.now p.0 }
{
    let at = units::low_word(p).0;
    let low = words[at];
    let high = words[at + 1];
    let control = section::control_of(high);
    section::clause_of(control, low, high)
}

// Whether a range does not end by the limit, or another one lies there; it is marked where neither is so.
fn is_unfit(range: Range, limit: Quadwords, marks: &mut [u8]) -> bool
    requires { (0 < range.size.0) × (range.size.0 ≤ 128) × (limit.0 ≤ length marks.old) }
    ensures { Found limit.0 range.start.0 range.size.0 marks.old result marks.new }
{
    if !units::ends_by(range.start, range.size, limit) {
        return true;
    }
    let start = range.start.0;
    has_clash(&mut marks[start..start + range.size.0])
}

// Marks a range, by the marks of its quadwords, unless it is marked already; true where another range lies there.
fn has_clash(marks: &mut [u8]) -> bool
    requires { (0 < length marks.old) × (length marks.old ≤ 128) }
    ensures { Claimed marks.old result marks.new }
{
    let first = marks.len() as u8 + 1;
    if marks[0] == first {
        return false;
    }
    for mark in marks.iter_mut() {
        if *mark != 0 {
            return true;
        }
        *mark = 1;
    }
    marks[0] = first;
    false
}
