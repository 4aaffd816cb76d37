// The instruction that a verdict names, found again by its opener's place and its slot, in a pack of words or of bytes.
ghost use Rattle.std.specs.Prelude.{◌≡◌, ℕ, List, get_or};
ghost use Rattle.units.specs.Code.{capped};
ghost use Rattle.faults.specs.Faults.{first_fault};
ghost use Rattle.judge.specs.Judge.{limits_in};
ghost use Rattle.input.specs.Words.{words_in};
ghost use Rattle.explain.specs.Explain as define;
ghost use Rattle.explain.specs.Code.{asked_by};

use card::Card;
use checks::{NotGranted, Place, Verdict};
use judge::limits_with;
use section::Clause;
use units::{Quadwords, Slots, Words};

// The words of a pack, which is lent as words or as bytes.
pub(crate) trait Pack {
    ghost words: { Self → List ℕ };

    // A word by its number; 0 where there is none, as where a number was cut to 64 bits (0 and no Option, as `get_or` has it).
    fn word(&self, i: Words) -> u32
        ensures { (n : ℕ) → i.0 ≡ capped n → result ≡ get_or (words self.now) n 0 };
}

#[derive(Clone, Copy)]
pub(crate) struct InWords<'a>(pub &'a [u32]);

#[derive(Clone, Copy)]
pub(crate) struct InBytes<'a>(pub &'a [u8]);

impl Pack for InWords<'_> {
    ghost words = { λ pack. pack.0.now };

    fn word(&self, i: Words) -> u32 {
        self.0.get(i.0).copied().unwrap_or(0)
    }
}

impl Pack for InBytes<'_> {
    ghost words = { λ pack. words_in pack.0.now };

    fn word(&self, i: Words) -> u32 {
        input::word_of(self.0, i)
    }
}

// The instruction that a verdict is about: its clause's opener, and its slot.
#[derive(Clone, Copy, Debug, PartialEq, Eq)]
pub(crate) struct Asked {
    pub opener: Quadwords,
    pub slot: Slots,
}

// Only 9 and 15 are about what an instruction names.
fn asked_by(verdict: Verdict) -> Option<Asked>
    ensures { result ≡ asked_by verdict }
{
    let refusal = verdict.err()?;
    match refusal.place {
        Place::Quadword(opener) if matches!(refusal.rule, 9 | 15) => Some(Asked {
            opener,
            slot: refusal.slot,
        }),
        _ => None,
    }
}

// What that instruction names that is not granted.
pub(crate) fn fault_of<P: Pack>(card: Card, pack: &P, verdict: Verdict) -> Option<NotGranted>
    ensures { result ≡ define.fault_of card (P.words pack.now) verdict }
{
    let asked = asked_by(verdict)?;
    fault_at(card, pack, asked)
}

fn fault_at<P: Pack>(card: Card, pack: &P, asked: Asked) -> Option<NotGranted>
    ensures { result ≡ define.fault_at card (P.words pack.now) asked.opener.0 asked.slot }
{
    let low = pack.word(units::low_word(asked.opener));
    let high = pack.word(units::high_word(asked.opener));
    let clause = section::clause_of(section::control_of(high), low, high)?;
    let at = units::slot_quadword(clause.range().start, asked.slot);
    let first = pack.word(units::low_word(at));
    fault_by(card, clause, first, pack.word(units::high_word(at)))
}

// The first number at fault of an instruction of the clause, or of a fetch, by its first two words.
fn fault_by(card: Card, clause: Clause, first: u32, second: u32) -> Option<NotGranted>
    ensures { result ≡ first_fault (limits_in card (Some clause)) (define.named_by clause first second) }
{
    match clause {
        Clause::Alu { mode0, mode1, .. } => {
            faults::instruction_fault(limits_with(card, mode0, mode1), first, second)
        }
        Clause::Fetch { kind, .. } => {
            faults::fetch_fault(kind, limits_with(card, 0, 0), first, second)
        }
    }
}
