// Control-flow instructions other than ALU clause openers and exports: CF_WORD0 and CF_WORD1.
#![tactic(auto, using(bits::proofs::OfTables::joined_word, bits::proofs::OfTables::tested_fits), unfolding(crate::specs::Cf::word0_table, crate::specs::Cf::word1_table))]

ghost use Rattle.std.specs.Prelude.{◌≡◌};
ghost use Rattle.formats.specs.Cf as format;

use crate::{Format, count_fits, fields, low_half};
use units::{Quadwords, Slots};

// CF_WORD0.
#[derive(Clone, Copy)]
pub struct CfWord0 {
    pub addr: Quadwords,
}

impl Format for CfWord0 {
    ghost table = { format.word0_table };

    ghost values = { format.word0_values };

    ghost of_word = { format.word0_of };

    fn read(word: u32) -> CfWord0 {
        CfWord0 {
            addr: Quadwords(bits::read(word, fields::ADDR) as usize),
        }
    }

    fn write(self) -> u32 {
        bits::put(low_half(self.addr.0), fields::ADDR)
    }

    fn fits(self) -> bool {
        count_fits(self.addr.0, fields::ADDR)
    }

    ghost laws = { format.word0_laws };
}

// CF_WORD1.
#[derive(Clone, Copy)]
pub struct CfWord1 {
    pub pop_count: u32,
    pub cf_const: u32,
    pub cond: u32,
    pub count: Slots,
    pub call_count: u32,
    // bit 20, carried
    pub rest: u32,
    pub end_of_program: u32,
    pub valid_pixel_mode: u32,
    pub cf_inst: u32,
    pub whole_quad_mode: u32,
    pub barrier: u32,
}

// COUNT, which a word holds in two pieces.
pub fn read_count(word: u32) -> Slots
    ensures { result ≡ format.count_of word }
{
    Slots((bits::read(word, fields::COUNT) + 8 * bits::read(word, fields::COUNT_3)) as usize)
}

// Its low three bits, and its top bit with what does not fit.
fn low_count(count: Slots) -> usize
    ensures { result ≡ format.low_count count }
{
    count.0 % 8
}

fn top_count(count: Slots) -> usize
    ensures { result ≡ format.top_count count }
{
    count.0 / 8
}

impl Format for CfWord1 {
    ghost table = { format.word1_table };

    ghost values = { format.word1_values };

    ghost of_word = { format.word1_of };

    fn read(word: u32) -> CfWord1 {
        CfWord1 {
            pop_count: bits::read(word, fields::POP_COUNT),
            cf_const: bits::read(word, fields::CF_CONST),
            cond: bits::read(word, fields::COND),
            count: read_count(word),
            call_count: bits::read(word, fields::CALL_COUNT),
            rest: bits::read(word, fields::BIT_20),
            end_of_program: bits::read(word, fields::END_OF_PROGRAM),
            valid_pixel_mode: bits::read(word, fields::VALID_PIXEL_MODE),
            cf_inst: bits::read(word, fields::CF_INST),
            whole_quad_mode: bits::read(word, fields::WHOLE_QUAD_MODE),
            barrier: bits::read(word, fields::BARRIER),
        }
    }

    fn write(self) -> u32 {
        let count = self.count;
        bits::put(self.pop_count, fields::POP_COUNT)
            | bits::put(self.cf_const, fields::CF_CONST)
            | bits::put(self.cond, fields::COND)
            | bits::put(low_half(low_count(count)), fields::COUNT)
            | bits::put(self.call_count, fields::CALL_COUNT)
            | bits::put(low_half(top_count(count)), fields::COUNT_3)
            | bits::put(self.rest, fields::BIT_20)
            | bits::put(self.end_of_program, fields::END_OF_PROGRAM)
            | bits::put(self.valid_pixel_mode, fields::VALID_PIXEL_MODE)
            | bits::put(self.cf_inst, fields::CF_INST)
            | bits::put(self.whole_quad_mode, fields::WHOLE_QUAD_MODE)
            | bits::put(self.barrier, fields::BARRIER)
    }

    fn fits(self) -> bool {
        let count = self.count;
        bits::fits(self.pop_count, fields::POP_COUNT)
            & bits::fits(self.cf_const, fields::CF_CONST)
            & bits::fits(self.cond, fields::COND)
            & count_fits(low_count(count), fields::COUNT)
            & bits::fits(self.call_count, fields::CALL_COUNT)
            & count_fits(top_count(count), fields::COUNT_3)
            & bits::fits(self.rest, fields::BIT_20)
            & bits::fits(self.end_of_program, fields::END_OF_PROGRAM)
            & bits::fits(self.valid_pixel_mode, fields::VALID_PIXEL_MODE)
            & bits::fits(self.cf_inst, fields::CF_INST)
            & bits::fits(self.whole_quad_mode, fields::WHOLE_QUAD_MODE)
            & bits::fits(self.barrier, fields::BARRIER)
    }

    ghost laws = { format.word1_laws };
}
