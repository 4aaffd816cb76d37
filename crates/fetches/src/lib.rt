// Rules 8 and 9 on a fetch clause: document 01, the paragraph on fetches in "Control-flow words".
#![tactic(auto)]

ghost use Rattle.std.specs.Prelude.{◌≡◌, ◌+◌, ◌*◌, ◌<◌, length};
ghost use Rattle.checks.specs.Checks.{first_broken};
ghost use Rattle.grants.specs.Grants.{all_granted};
ghost use Rattle.fetches.specs.Fetches.{is_semantic, destination, source, named, bad_fetch, clause_checks};
ghost use Rattle.fetches.specs.Code.{broken_rule};

use bits::read;
use checks::{Place, Refusal, Verdict};
use formats::fields;
use grants::Limits;
use opcodes::cf::FetchKind;
use units::{Quadwords, Slots, Words};

// A clause of `fetches` fetches from `start` on, whose opener stands at `place`: the first broken check of rules 8 and 9.
pub fn fetch_clause(
    words: &[u32],
    place: Quadwords,
    start: Quadwords,
    fetches: Slots,
    kind: FetchKind,
    limits: Limits,
) -> Verdict
    ensures { result ≡ first_broken (clause_checks kind limits words.now place start fetches) }
{
    // Where the clause does not lie in the buffer, rule 6 has refused it.
    if !units::fetches_lie_in(Words(words.len()), start, fetches) {
        return Ok(());
    }
    for i in 0..fetches.0 {
        let slot = units::fetch_slot(Slots(i));
        let fetch = units::slot_quadword(start, slot);
        if let Some(rule) = broken_rule(kind, limits, words, fetch) {
            return Err(Refusal {
                rule,
                place: Place::Quadword(place),
                slot,
            });
        }
    }
    Ok(())
}

// The first of rules 8 and 9 that a fetch breaks, a number as in `checks::Refusal` and for its reason, by its first quadword.
#[tactic(auto, unfolding(units::specs::Units::low_at, units::specs::Units::high_at))]
fn broken_rule(kind: FetchKind, limits: Limits, words: &[u32], fetch: Quadwords) -> Option<u8>
    requires { 2 * fetch.0 + 3 < length words.now }
    ensures { result ≡ broken_rule kind limits words.now fetch }
{
    let at = units::low_word(fetch).0;
    let number = read(words[at], fields::FETCH_INST);
    if is_bad(kind, number, words[at + 3]) {
        return Some(8);
    }
    if !registers_granted(kind, number, limits, words[at], words[at + 1]) {
        return Some(9);
    }
    None
}

// Rule 8: the number is not taken, or the fourth word is not 0.
pub fn is_bad(kind: FetchKind, number: u32, word3: u32) -> bool
    ensures { result ≡ bad_fetch kind number word3 }
{
    if word3 != 0 {
        return true;
    }
    !opcodes::fetch_taken(kind, number)
}

// A semantic fetch looks its destination up, and names none.
pub fn is_semantic(kind: FetchKind, number: u32) -> bool
    ensures { result ≡ is_semantic kind number }
{
    match kind {
        FetchKind::Vertex => number == 1,
        FetchKind::Texture => false,
    }
}

// Rule 9 on the destination.
fn destination_granted(kind: FetchKind, number: u32, limits: Limits, word1: u32) -> bool
    ensures { result ≡ all_granted limits (destination kind number word1) }
{
    if is_semantic(kind, number) {
        return true;
    }
    if read(word1, fields::FETCH_DST_REL) != 0 {
        return true;
    }
    grants::register_granted(limits, read(word1, fields::FETCH_DST_GPR))
}

// Rule 9 on the source.
fn source_granted(limits: Limits, word0: u32) -> bool
    ensures { result ≡ all_granted limits (source word0) }
{
    if read(word0, fields::FETCH_SRC_REL) != 0 {
        return true;
    }
    grants::register_granted(limits, read(word0, fields::FETCH_SRC_GPR))
}

// Rule 9: destination, then source.
fn registers_granted(kind: FetchKind, number: u32, limits: Limits, word0: u32, word1: u32) -> bool
    ensures { result ≡ all_granted limits (named kind number word0 word1) }
{
    if !destination_granted(kind, number, limits, word1) {
        return false;
    }
    source_granted(limits, word0)
}
