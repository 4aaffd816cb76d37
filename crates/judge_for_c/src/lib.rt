// The judge on words for C and Rust to link, by crate judge_for_c_c, which exports it. The judge on files is in crate files_for_c, the codec in
// codec_for_c: `tools/archive` compiles each by itself and joins them to one archive (docs/DECISIONS.md, "One archive for C").
//
// A slice is passed as a pointer and a length. A verdict comes back as one number (specs/Packed.antt).
#![tactic(auto)]

ghost use Rattle.std.specs.Prelude.{◌≡◌};
ghost use Rattle.judge.specs.Judge.{judgement_of_bytes};
ghost use Rattle.judge.specs.Safe.{SafelyRead};
ghost use Rattle.judge_for_c.specs.Packed.{packed, ReadBack};

use checks::Verdict;

// The verdict on a pack by a card in bytes. Its number, place and slot stand in the answer uncut; and where the answer is 0, every walk of
// the pack is safe. Of release it says nothing.
#[unsafe(no_mangle)]
pub extern "C" fn zlatomruk_judge(card: &[u8], words: &[u32]) -> u64
    ensures value { result ≡ packed (judgement_of_bytes card.now words.now) 0 }
    ensures read_back { ReadBack (judgement_of_bytes card.now words.now) 0 result }
    ensures safely_read { result ≡ 0 → SafelyRead card.now words.now }
{
    packed_number(judge::judge_bytes(card, words), 0)
}

// As a row of fields. Every number is a byte; places and slots are cut here, and bounded by the judge's laws.
#[tactic(auto, unfolding(crate::specs::Packed::packed))]
pub fn packed_number(v: Verdict, bit: u64) -> u64
    ensures { result ≡ packed v bit }
{
    let number = u64::from(checks::verdict_number(v));
    let place = (checks::verdict_place(v) % 0x1_0000) as u64;
    let slot = (checks::verdict_slot(v) % 0x1_0000) as u64;
    number + (place * 0x1_0000 + (slot * 0x1_0000_0000 + bit % 2 * 0x1_0000_0000_0000))
}
