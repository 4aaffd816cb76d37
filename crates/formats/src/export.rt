// Exports: CF_ALLOC_EXPORT_WORD0 and CF_ALLOC_EXPORT_WORD1_SWIZ.
#![tactic(auto, using(bits::proofs::OfTables::joined_word, bits::proofs::OfTables::tested_fits), unfolding(crate::specs::Export::word0_table, crate::specs::Export::word1_table))]

ghost use Rattle.formats.specs.Export as format;

use crate::{Format, fields};

// CF_ALLOC_EXPORT_WORD0.
#[derive(Clone, Copy)]
pub struct CfAllocExportWord0 {
    pub array_base: u32,
    // TYPE
    pub export_type: u32,
    pub rw_gpr: u32,
    pub rw_rel: u32,
    pub index_gpr: u32,
    pub elem_size: u32,
}

impl Format for CfAllocExportWord0 {
    ghost table = { format.word0_table };

    ghost values = { format.word0_values };

    ghost of_word = { format.word0_of };

    fn read(word: u32) -> CfAllocExportWord0 {
        CfAllocExportWord0 {
            array_base: bits::read(word, fields::ARRAY_BASE),
            export_type: bits::read(word, fields::TYPE),
            rw_gpr: bits::read(word, fields::RW_GPR),
            rw_rel: bits::read(word, fields::RW_REL),
            index_gpr: bits::read(word, fields::INDEX_GPR),
            elem_size: bits::read(word, fields::ELEM_SIZE),
        }
    }

    fn write(self) -> u32 {
        bits::put(self.array_base, fields::ARRAY_BASE)
            | bits::put(self.export_type, fields::TYPE)
            | bits::put(self.rw_gpr, fields::RW_GPR)
            | bits::put(self.rw_rel, fields::RW_REL)
            | bits::put(self.index_gpr, fields::INDEX_GPR)
            | bits::put(self.elem_size, fields::ELEM_SIZE)
    }

    fn fits(self) -> bool {
        bits::fits(self.array_base, fields::ARRAY_BASE)
            & bits::fits(self.export_type, fields::TYPE)
            & bits::fits(self.rw_gpr, fields::RW_GPR)
            & bits::fits(self.rw_rel, fields::RW_REL)
            & bits::fits(self.index_gpr, fields::INDEX_GPR)
            & bits::fits(self.elem_size, fields::ELEM_SIZE)
    }

    ghost laws = { format.word0_laws };
}

// CF_ALLOC_EXPORT_WORD1_SWIZ.
#[derive(Clone, Copy)]
pub struct CfAllocExportWord1Swiz {
    pub sel_x: u32,
    pub sel_y: u32,
    pub sel_z: u32,
    pub sel_w: u32,
    // bits 16:12, carried
    pub rest: u32,
    pub burst_count: u32,
    pub end_of_program: u32,
    pub valid_pixel_mode: u32,
    pub cf_inst: u32,
    pub whole_quad_mode: u32,
    pub barrier: u32,
}

impl Format for CfAllocExportWord1Swiz {
    ghost table = { format.word1_table };

    ghost values = { format.word1_values };

    ghost of_word = { format.word1_of };

    fn read(word: u32) -> CfAllocExportWord1Swiz {
        CfAllocExportWord1Swiz {
            sel_x: bits::read(word, fields::SEL_X),
            sel_y: bits::read(word, fields::SEL_Y),
            sel_z: bits::read(word, fields::SEL_Z),
            sel_w: bits::read(word, fields::SEL_W),
            rest: bits::read(word, fields::BITS_16_12),
            burst_count: bits::read(word, fields::BURST_COUNT),
            end_of_program: bits::read(word, fields::END_OF_PROGRAM),
            valid_pixel_mode: bits::read(word, fields::VALID_PIXEL_MODE),
            cf_inst: bits::read(word, fields::CF_INST),
            whole_quad_mode: bits::read(word, fields::WHOLE_QUAD_MODE),
            barrier: bits::read(word, fields::BARRIER),
        }
    }

    fn write(self) -> u32 {
        bits::put(self.sel_x, fields::SEL_X)
            | bits::put(self.sel_y, fields::SEL_Y)
            | bits::put(self.sel_z, fields::SEL_Z)
            | bits::put(self.sel_w, fields::SEL_W)
            | bits::put(self.rest, fields::BITS_16_12)
            | bits::put(self.burst_count, fields::BURST_COUNT)
            | bits::put(self.end_of_program, fields::END_OF_PROGRAM)
            | bits::put(self.valid_pixel_mode, fields::VALID_PIXEL_MODE)
            | bits::put(self.cf_inst, fields::CF_INST)
            | bits::put(self.whole_quad_mode, fields::WHOLE_QUAD_MODE)
            | bits::put(self.barrier, fields::BARRIER)
    }

    fn fits(self) -> bool {
        bits::fits(self.sel_x, fields::SEL_X)
            & bits::fits(self.sel_y, fields::SEL_Y)
            & bits::fits(self.sel_z, fields::SEL_Z)
            & bits::fits(self.sel_w, fields::SEL_W)
            & bits::fits(self.rest, fields::BITS_16_12)
            & bits::fits(self.burst_count, fields::BURST_COUNT)
            & bits::fits(self.end_of_program, fields::END_OF_PROGRAM)
            & bits::fits(self.valid_pixel_mode, fields::VALID_PIXEL_MODE)
            & bits::fits(self.cf_inst, fields::CF_INST)
            & bits::fits(self.whole_quad_mode, fields::WHOLE_QUAD_MODE)
            & bits::fits(self.barrier, fields::BARRIER)
    }

    ghost laws = { format.word1_laws };
}
