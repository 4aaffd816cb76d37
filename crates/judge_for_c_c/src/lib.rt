// The judge on words for C and Rust to link: a part of libzlatomruk.a (tools/archive). What is exported is crate judge_for_c's function of the same
// name.
//
// A slice is passed as a pointer and a length. A verdict comes back as one number (crate judge_for_c, specs/Packed.antt).
#![tactic(auto)]

ghost use Rattle.std.specs.Prelude.{◌≡◌};
ghost use Rattle.judge.specs.Judge.{judgement_of_bytes};
ghost use Rattle.judge.specs.Safe.{SafelyRead};
ghost use Rattle.judge_for_c.specs.Packed.{packed, ReadBack};

// The verdict on a pack by a card in bytes. Its number, place and slot stand in the answer uncut; and where the answer is 0, every walk of
// the pack is safe. Of release it says nothing.
#[unsafe(no_mangle)]
pub extern "C" fn zlatomruk_judge(card: &[u8], words: &[u32]) -> u64
    ensures value { result ≡ packed (judgement_of_bytes card.now words.now) 0 }
    ensures read_back { ReadBack (judgement_of_bytes card.now words.now) 0 result }
    ensures safely_read { result ≡ 0 → SafelyRead card.now words.now }
{
    judge_for_c::zlatomruk_judge(card, words)
}
