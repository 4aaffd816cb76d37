// Which instruction numbers are taken, what each control-flow number is, and the class of each ALU number.
//
// specs/ lists every number with its mnemonic. Here those of ALU instructions are looked up in a table, those of control flow are decided by
// matches, and those of texture fetches by a bit each.
#![tactic(auto)]

pub mod alu;
pub mod cf;
mod table;

ghost use Rattle.std.specs.Prelude.{◌≡◌};
ghost use Rattle.opcodes.specs.Numbers.{fetch_taken};
ghost use Rattle.opcodes.specs.declared.cf.FetchKind.TheVariants as kinds;

use cf::FetchKind;

// The number of a fetch in a clause of that kind.
pub fn fetch_taken(kind: FetchKind, number: u32) -> bool
    ensures { result ≡ fetch_taken kind number }
{
    match kind {
        FetchKind::Vertex => vertex_fetch_taken(number),
        FetchKind::Texture => texture_fetch_taken(number),
    }
}

// Section 9.3.
#[tactic(auto, unfolding(crate::specs::Numbers::fetch_taken, crate::specs::Numbers::vertex_fetches))]
fn vertex_fetch_taken(number: u32) -> bool
    ensures { result ≡ fetch_taken kinds.Vertex number }
{
    // FETCH, SEMANTIC
    matches!(number, 0..=1)
}

// Section 9.4: bit n is set where number n is taken, which are 2 to 8, 10 to 12, 14 and 16 to 31. Texture fetches mix the numbers, so a match
// over the runs would be branches that a processor guesses wrongly.
const TEXTURE_FETCHES: u32 = 0b1111_1111_1111_1111_0101_1101_1111_1100;

fn texture_fetch_taken(number: u32) -> bool
    ensures { result ≡ fetch_taken kinds.Texture number }
{
    if 31 < number {
        return false;
    }
    (TEXTURE_FETCHES >> number) % 2 == 1
}
