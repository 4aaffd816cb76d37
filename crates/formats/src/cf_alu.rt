// ALU clause openers (CF_ALU): CF_ALU_WORD0 and CF_ALU_WORD1.
#![tactic(auto, using(bits::proofs::OfTables::joined_word, bits::proofs::OfTables::tested_fits), unfolding(crate::specs::CfAlu::word0_table, crate::specs::CfAlu::word1_table))]

ghost use Rattle.formats.specs.CfAlu as format;

use crate::{Format, count_fits, fields, low_half};
use units::{Quadwords, Slots};

// CF_ALU_WORD0.
#[derive(Clone, Copy)]
pub struct CfAluWord0 {
    pub addr: Quadwords,
    pub kcache_bank0: u32,
    pub kcache_bank1: u32,
    pub kcache_mode0: u32,
}

impl Format for CfAluWord0 {
    ghost table = { format.word0_table };

    ghost values = { format.word0_values };

    ghost of_word = { format.word0_of };

    fn read(word: u32) -> CfAluWord0 {
        CfAluWord0 {
            addr: Quadwords(bits::read(word, fields::CF_ALU_ADDR) as usize),
            kcache_bank0: bits::read(word, fields::KCACHE_BANK0),
            kcache_bank1: bits::read(word, fields::KCACHE_BANK1),
            kcache_mode0: bits::read(word, fields::KCACHE_MODE0),
        }
    }

    fn write(self) -> u32 {
        bits::put(low_half(self.addr.0), fields::CF_ALU_ADDR)
            | bits::put(self.kcache_bank0, fields::KCACHE_BANK0)
            | bits::put(self.kcache_bank1, fields::KCACHE_BANK1)
            | bits::put(self.kcache_mode0, fields::KCACHE_MODE0)
    }

    fn fits(self) -> bool {
        count_fits(self.addr.0, fields::CF_ALU_ADDR)
            & bits::fits(self.kcache_bank0, fields::KCACHE_BANK0)
            & bits::fits(self.kcache_bank1, fields::KCACHE_BANK1)
            & bits::fits(self.kcache_mode0, fields::KCACHE_MODE0)
    }

    ghost laws = { format.word0_laws };
}

// CF_ALU_WORD1.
#[derive(Clone, Copy)]
pub struct CfAluWord1 {
    pub kcache_mode1: u32,
    pub kcache_addr0: u32,
    pub kcache_addr1: u32,
    pub count: Slots,
    pub alt_const: u32,
    pub cf_inst: u32,
    pub whole_quad_mode: u32,
    pub barrier: u32,
}

impl Format for CfAluWord1 {
    ghost table = { format.word1_table };

    ghost values = { format.word1_values };

    ghost of_word = { format.word1_of };

    fn read(word: u32) -> CfAluWord1 {
        CfAluWord1 {
            kcache_mode1: bits::read(word, fields::KCACHE_MODE1),
            kcache_addr0: bits::read(word, fields::KCACHE_ADDR0),
            kcache_addr1: bits::read(word, fields::KCACHE_ADDR1),
            count: Slots(bits::read(word, fields::CF_ALU_COUNT) as usize),
            alt_const: bits::read(word, fields::ALT_CONST),
            cf_inst: bits::read(word, fields::CF_ALU_INST),
            whole_quad_mode: bits::read(word, fields::WHOLE_QUAD_MODE),
            barrier: bits::read(word, fields::BARRIER),
        }
    }

    fn write(self) -> u32 {
        bits::put(self.kcache_mode1, fields::KCACHE_MODE1)
            | bits::put(self.kcache_addr0, fields::KCACHE_ADDR0)
            | bits::put(self.kcache_addr1, fields::KCACHE_ADDR1)
            | bits::put(low_half(self.count.0), fields::CF_ALU_COUNT)
            | bits::put(self.alt_const, fields::ALT_CONST)
            | bits::put(self.cf_inst, fields::CF_ALU_INST)
            | bits::put(self.whole_quad_mode, fields::WHOLE_QUAD_MODE)
            | bits::put(self.barrier, fields::BARRIER)
    }

    fn fits(self) -> bool {
        bits::fits(self.kcache_mode1, fields::KCACHE_MODE1)
            & bits::fits(self.kcache_addr0, fields::KCACHE_ADDR0)
            & bits::fits(self.kcache_addr1, fields::KCACHE_ADDR1)
            & count_fits(self.count.0, fields::CF_ALU_COUNT)
            & bits::fits(self.alt_const, fields::ALT_CONST)
            & bits::fits(self.cf_inst, fields::CF_ALU_INST)
            & bits::fits(self.whole_quad_mode, fields::WHOLE_QUAD_MODE)
            & bits::fits(self.barrier, fields::BARRIER)
    }

    ghost laws = { format.word1_laws };
}
