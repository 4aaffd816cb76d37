// Counts of quadwords, slots and words, and every conversion from one to another.
//
// Document 01: "ADDR counts quadwords, COUNT counts slots and the buffer counts words; a reader of this code must not be able to
// add one to another by accident." So each count has a type of its own, and each conversion is a function with a name.
//
// A count that 64 bits do not hold is answered as the largest number that they do (`quadwords_in_64`, ..): it lies behind every buffer,
// as the true count would. No ADDR of 32 bits comes near that (proofs/OfUnits.antt).
#![tactic(auto)]

ghost use Rattle.std.specs.Prelude.{◌≡◌};
ghost use Rattle.units.specs.Units as count;
ghost use Rattle.units.specs.Code.{capped, quadwords_in_64, slots_in_64, words_in_64};

// A number of quadwords (pairs of words), or the number of one, as ADDR gives it.
#[derive(Clone, Copy, Debug, PartialEq, Eq, PartialOrd, Ord)]
pub struct Quadwords(pub usize);

// A number of slots of a clause, or the number of one, as COUNT gives it.
#[derive(Clone, Copy, Debug, PartialEq, Eq, PartialOrd, Ord)]
pub struct Slots(pub usize);

// A number of 32-bit words, or the number of one, as the buffer counts them.
#[derive(Clone, Copy, Debug, PartialEq, Eq, PartialOrd, Ord)]
pub struct Words(pub usize);

// The number of a quadword's low word.
pub fn low_word(q: Quadwords) -> Words
    ensures { result ≡ words_in_64 (count.low_word q) }
{
    Words(q.0.saturating_add(q.0))
}

// The number of a quadword's high word.
pub fn high_word(q: Quadwords) -> Words
    ensures { result ≡ words_in_64 (count.high_word q) }
{
    Words(q.0.saturating_add(q.0).saturating_add(1))
}

// The words that so many quadwords take.
pub fn words_of(q: Quadwords) -> Words
    ensures { result ≡ words_in_64 (count.words_of q) }
{
    Words(q.0.saturating_add(q.0))
}

// The quadwords that lie wholly in so many words.
pub fn whole_quadwords(n: Words) -> Quadwords
    ensures { result ≡ count.whole_quadwords n }
{
    Quadwords(n.0 / 2)
}

// What a COUNT field stands for: it is one less than the slots, or the fetches, of its clause.
pub fn counted_by(field: Slots) -> Slots
    ensures { result ≡ slots_in_64 (count.counted field) }
{
    Slots(field.0.saturating_add(1))
}

// The quadwords that so many slots of an ALU clause take, one each.
pub fn slots_length(n: Slots) -> Quadwords
    ensures { result ≡ count.slots_length n }
{
    Quadwords(n.0)
}

// The quadwords that so many fetches take, two each.
pub fn fetches_length(n: Slots) -> Quadwords
    ensures { result ≡ quadwords_in_64 (count.fetches_length n) }
{
    Quadwords(n.0.saturating_add(n.0))
}

// The slot of a clause's fetch, counted from 0.
pub fn fetch_slot(i: Slots) -> Slots
    ensures { result ≡ slots_in_64 (count.fetch_slot i) }
{
    Slots(i.0.saturating_add(i.0))
}

// The slot that lies `n` slots behind `s`.
pub fn slot_behind(s: Slots, n: Slots) -> Slots
    ensures { result ≡ slots_in_64 (count.slot_behind s n) }
{
    Slots(s.0.saturating_add(n.0))
}

// Of `n` slots, those from slot `s` on.
pub fn slots_left(n: Slots, s: Slots) -> Slots
    ensures { result ≡ count.slots_left n s }
{
    Slots(n.0.saturating_sub(s.0))
}

// The quadword of slot `s` of the clause that starts at `start`.
pub fn slot_quadword(start: Quadwords, s: Slots) -> Quadwords
    ensures { result ≡ quadwords_in_64 (count.slot_quadword start s) }
{
    Quadwords(start.0.saturating_add(s.0))
}

// The quadword behind a range of so many quadwords.
pub fn range_end(start: Quadwords, size: Quadwords) -> Quadwords
    ensures { result ≡ quadwords_in_64 (count.range_end start size) }
{
    Quadwords(start.0.saturating_add(size.0))
}

// Whether a range of so many quadwords ends at `limit` or before. Counts have 64 bits, so that no ADDR of 32 wraps round.
pub fn ends_by(start: Quadwords, size: Quadwords, limit: Quadwords) -> bool
    ensures { result ≡ count.is_at_most (count.range_end start size) limit }
{
    match start.0.checked_add(size.0) {
        Some(end) => end <= limit.0,
        None => false,
    }
}

// Whether so many slots, or fetches, from `start` on lie in a buffer of so many words.
pub fn slots_lie_in(buffer: Words, start: Quadwords, n: Slots) -> bool
    ensures { result ≡ count.lies_in buffer start (count.slots_length n) }
{
    ends_by(start, slots_length(n), whole_quadwords(buffer))
}

pub fn fetches_lie_in(buffer: Words, start: Quadwords, n: Slots) -> bool
    ensures { result ≡ count.lies_in buffer start (count.fetches_length n) }
{
    ends_by(start, fetches_length(n), whole_quadwords(buffer))
}

// The next quadword.
pub fn quadword_behind(q: Quadwords) -> Quadwords
    ensures { result ≡ quadwords_in_64 (count.quadword_behind q) }
{
    Quadwords(q.0.saturating_add(1))
}

// The quadword before; that of quadword 0 is 0.
pub fn quadword_before(q: Quadwords) -> Quadwords
    ensures { result ≡ count.quadword_before q }
{
    Quadwords(q.0.saturating_sub(1))
}
