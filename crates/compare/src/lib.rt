// Two packs side by side: which words of the newer one changed.
//
// Document 01: "Given an older and a newer slice of words, any lengths, the answer is a part of the newer: after the longest common
// beginning, before the longest common ending of what then remains in both." The ending is looked for only behind the beginning,
// so that no word counts in both.
#![tactic(auto)]

ghost use Rattle.std.specs.Prelude.{◌≡◌, ◌≤◌, length, reverse};
ghost use Rattle.compare.specs.Changed.{changed_words, changed_start, word_place};
ghost use Rattle.compare.specs.Code.{in_common};

use units::Words;

// The part of the newer words that changed. Where words were only removed, or nothing changed, it is empty.
pub fn changed<'a, 'b>(older: &'a [u32], newer: &'b [u32]) -> &'b [u32]
    ensures result_value { result.now ≡ changed_words older.now newer.now }
    ensures ref_ptr_value { result.ref_ptr ≡ word_place newer.entry (changed_start older.now newer.now) }
{
    let start = common_beginning(older, newer);
    let older_rest = &older[start..];
    let newer_rest = &newer[start..];
    let ending = common_ending(older_rest, newer_rest);
    let length = newer_rest.len() - ending;
    &newer_rest[..length]
}

// The number of the word of the newer at which that part starts.
#[tactic(auto, using(crate::proofs::OfChanged::counted))]
pub fn changed_start(older: &[u32], newer: &[u32]) -> Words
    ensures { result ≡ changed_start older.now newer.now }
{
    Words(common_beginning(older, newer))
}

// How many words the two have in common at their beginnings.
fn common_beginning(older: &[u32], newer: &[u32]) -> usize
    ensures value { result ≡ in_common older.now newer.now }
    ensures in_older { result ≤ length older.now }
    ensures in_newer { result ≤ length newer.now }
{
    older.iter().zip(newer).take_while(|(a, b)| a == b).count()
}

// How many words the two have in common at their ends. The two counts stay apart: a function over any two iterators is longer than both.
fn common_ending(older: &[u32], newer: &[u32]) -> usize
    ensures value { result ≡ in_common (reverse older.now) (reverse newer.now) }
    ensures in_older { result ≤ length older.now }
    ensures in_newer { result ≤ length newer.now }
{
    older
        .iter()
        .rev()
        .zip(newer.iter().rev())
        .take_while(|(a, b)| a == b)
        .count()
}
