// The judge: both passes over a pack, and its verdict.
//
// Document 01, "Numbers and what they mean": the checks in their order, of which the first broken one is the answer. Nothing is copied;
// the stack before each place of the section is kept as two numbers (crate `walk`), and of the clauses where they end (crate `apart`).
#![tactic(auto)]

ghost use Rattle.std.specs.Prelude.{◌≡◌};
ghost use Rattle.checks.specs.Verdict.{Accepted, refusal};
ghost use Rattle.checks.specs.declared.Place.TheVariants as places;
ghost use Rattle.judge.specs.Judge.{judgement, judgement_of_bytes};
ghost use Rattle.judge.specs.Safe.{Safely, SafelyRead};

use card::{BadLine, Card};
use checks::{Place, Refusal, Verdict};

mod pairs;
mod passes;

pub use pairs::limits_with;
use passes::Section;

// The verdict on a pack by a card. Whatever the words and the card are, there is an answer; and where it is Accepted, every walk is safe.
pub fn judge(card: Card, words: &[u32]) -> Verdict
    ensures value { result ≡ judgement card words.now }
    ensures safely { result ≡ Accepted → Safely card words.now }
{
    if let Err(line) = card::check_card(card) {
        return Err(bad_card(line));
    }
    if section::is_bad_length(words, card.quads) {
        return Err(Refusal::of_place(2, Place::Whole));
    }
    let end = section::find_end(words);
    if section::searched_pairs(words) <= end {
        return Err(Refusal::of_place(3, Place::Whole));
    }
    Section { card, words, end }.verdict()
}

// The same of a card in bytes. What stands behind its seventh line is not looked at.
#[tactic(auto, unfolding(crate::specs::Judge::judgement_of_bytes))]
pub fn judge_bytes(bytes: &[u8], words: &[u32]) -> Verdict
    ensures value { result ≡ judgement_of_bytes bytes.now words.now }
    ensures safely_read { result ≡ Accepted → SafelyRead bytes.now words.now }
{
    match card::read_card(bytes) {
        Ok((card, _)) => judge(card, words),
        Err(line) => Err(bad_card(line)),
    }
}

// Rule 1. No From can stand here, as both types are other crates'.
fn bad_card(line: BadLine) -> Refusal
    ensures { result ≡ refusal 1 (places.Line line.0) 0 }
{
    Refusal::of_place(1, Place::Line(line.0))
}
