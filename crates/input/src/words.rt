// A pack's bytes as words, and words as its bytes.
ghost use Rattle.std.specs.Prelude.{◌≡◌, ◌++◌, ℕ, ◌+◌, ◌/◌, ◌≤◌, min, length, take, drop, get_or};
ghost use Rattle.units.specs.Code.{capped};
ghost use Rattle.input.specs.Words.{words_in, word_at, stored_in};

use units::Words;

// Puts the words of `bytes` at the start of `words`, as many as have room there, and answers how many they are. They are put by their
// numbers: of what was written through `iter_mut` a proof knows no element. Where the compiler took this in, beside the room that it fills, it would
// make a call of memcpy of the loop, and the archive for C needs memset alone (include/zlatomruk.h).
#[inline(never)]
pub fn load(bytes: &[u8], words: &mut [u32]) -> usize
    ensures value { result ≡ min (length bytes.now / 4) (length words.old) }
    ensures words_after { words.new ≡ take result (words_in bytes.now) ++ drop result words.old }
{
    let n = (bytes.len() / 4).min(words.len());
    for i in 0..n {
        words[i] = word_at(bytes, i * 4);
    }
    n
}

// Puts the bytes of `words` over the beginning of `bytes`, those of as many words as have room there.
pub fn store(words: &[u32], bytes: &mut [u8])
    ensures { bytes.new ≡ stored_in words.now bytes.old }
{
    let n = words.len().min(bytes.len() / 4);
    // By their numbers, as in `load`.
    for i in 0..n {
        let word = words[i];
        bytes[i * 4..i * 4 + 4].copy_from_slice(&word.to_le_bytes());
    }
}

// A word of a pack in bytes by its number; 0 where there is none, as where a number was cut to 64 bits (0 and no Option, as `get_or` has it).
pub fn word_of(bytes: &[u8], i: Words) -> u32
    ensures value { result ≡ get_or (words_in bytes.now) i.0 0 }
    ensures by_index { (n : ℕ) → i.0 ≡ capped n → result ≡ get_or (words_in bytes.now) n 0 }
{
    if i.0 < bytes.len() / 4 {
        word_at(bytes, i.0 * 4)
    } else {
        0
    }
}

// The word whose lowest byte stands at a place.
fn word_at(bytes: &[u8], at: usize) -> u32
    requires { at + 4 ≤ length bytes.now }
    ensures { result ≡ word_at bytes.now at }
{
    u32::from_le_bytes([bytes[at], bytes[at + 1], bytes[at + 2], bytes[at + 3]])
}
