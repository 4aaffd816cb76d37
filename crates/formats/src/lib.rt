// The word formats of the guide: every field by AMD's name (fields.rt), and for each word a record of its fields that can be read, written and
// tested for its widths.
#![tactic(auto)]

pub mod alu;
pub mod cf;
pub mod cf_alu;
pub mod export;
pub mod fields;
pub mod tex;
pub mod vtx;

ghost use Rattle.std.specs.Prelude.{◌≡◌, ◌%◌, ◌^◌, ltb, ℕ, List};
ghost use Rattle.bits.specs.declared.Bits.{Bits};
ghost use Rattle.bits.specs.Fields.{width_of};
ghost use Rattle.bits.specs.Tables.{word_of, fits_table};
ghost use Rattle.formats.specs.Laws.{FormatLaws};

use bits::Bits;

// A word of the guide, as the record of its fields.
pub trait Format: Copy {
    // Where its fields stand, in their order; their values in a record, in the same order; and the record that a word holds.
    ghost table: { List Bits };

    ghost values: { Self → List ℕ };

    ghost of_word: { ℕ → Self };

    fn read(word: u32) -> Self
        ensures { result ≡ of_word word };

    // The word of a record, each field cut to its width.
    fn write(self) -> u32
        ensures { result ≡ word_of table (values self) };

    // Whether each field is within its width.
    fn fits(self) -> bool
        ensures { result ≡ fits_table table (values self) };

    // Reading and writing undo each other, both ways.
    ghost laws: { FormatLaws table values of_word };
}

// The low 32 bits of a count, which has 64.
pub(crate) fn low_half(n: usize) -> u32
    ensures { result ≡ n % 2 ^ 32 }
{
    (n % 0x1_0000_0000) as u32
}

// Whether a count is within a field's width.
pub(crate) fn count_fits(n: usize, f: Bits) -> bool
    ensures { result ≡ ltb n (2 ^ width_of f) }
{
    match u32::try_from(n) {
        Ok(n) => bits::fits(n, f),
        Err(_) => false,
    }
}
