// Texture fetches: TEX_WORD0, TEX_WORD1 and TEX_WORD2, section 10.4.
#![tactic(auto, using(bits::proofs::OfTables::joined_word, bits::proofs::OfTables::tested_fits), unfolding(crate::specs::Tex::word0_fields, crate::specs::Tex::word1_fields, crate::specs::Tex::word2_fields))]

ghost use Rattle.formats.specs.Tex as format;

use crate::{Format, fields};

// TEX_WORD0.
#[derive(Clone, Copy)]
pub struct TexWord0 {
    pub tex_inst: u32,
    pub bc_frac_mode: u32,
    // bit 6, carried
    pub reserved0_6: u32,
    pub fetch_whole_quad: u32,
    pub resource_id: u32,
    pub src_gpr: u32,
    pub src_rel: u32,
    pub alt_const: u32,
    // bits 31:25, carried
    pub reserved0_25: u32,
}

impl Format for TexWord0 {
    ghost table = { format.word0_table };

    ghost values = { format.word0_values };

    ghost of_word = { format.word0_of };

    fn read(word: u32) -> TexWord0 {
        TexWord0 {
            tex_inst: bits::read(word, fields::FETCH_INST),
            bc_frac_mode: bits::read(word, fields::BC_FRAC_MODE),
            reserved0_6: bits::read(word, fields::RESERVED0_6),
            fetch_whole_quad: bits::read(word, fields::FETCH_WHOLE_QUAD),
            resource_id: bits::read(word, fields::RESOURCE_ID),
            src_gpr: bits::read(word, fields::FETCH_SRC_GPR),
            src_rel: bits::read(word, fields::FETCH_SRC_REL),
            alt_const: bits::read(word, fields::TEX_ALT_CONST),
            reserved0_25: bits::read(word, fields::RESERVED0_25),
        }
    }

    fn write(self) -> u32 {
        bits::put(self.tex_inst, fields::FETCH_INST)
            | bits::put(self.bc_frac_mode, fields::BC_FRAC_MODE)
            | bits::put(self.reserved0_6, fields::RESERVED0_6)
            | bits::put(self.fetch_whole_quad, fields::FETCH_WHOLE_QUAD)
            | bits::put(self.resource_id, fields::RESOURCE_ID)
            | bits::put(self.src_gpr, fields::FETCH_SRC_GPR)
            | bits::put(self.src_rel, fields::FETCH_SRC_REL)
            | bits::put(self.alt_const, fields::TEX_ALT_CONST)
            | bits::put(self.reserved0_25, fields::RESERVED0_25)
    }

    fn fits(self) -> bool {
        bits::fits(self.tex_inst, fields::FETCH_INST)
            & bits::fits(self.bc_frac_mode, fields::BC_FRAC_MODE)
            & bits::fits(self.reserved0_6, fields::RESERVED0_6)
            & bits::fits(self.fetch_whole_quad, fields::FETCH_WHOLE_QUAD)
            & bits::fits(self.resource_id, fields::RESOURCE_ID)
            & bits::fits(self.src_gpr, fields::FETCH_SRC_GPR)
            & bits::fits(self.src_rel, fields::FETCH_SRC_REL)
            & bits::fits(self.alt_const, fields::TEX_ALT_CONST)
            & bits::fits(self.reserved0_25, fields::RESERVED0_25)
    }

    ghost laws = { format.word0_laws };
}

// TEX_WORD1.
#[derive(Clone, Copy)]
pub struct TexWord1 {
    pub dst_gpr: u32,
    pub dst_rel: u32,
    // bit 8, carried
    pub reserved1_8: u32,
    pub dst_sel_x: u32,
    pub dst_sel_y: u32,
    pub dst_sel_z: u32,
    pub dst_sel_w: u32,
    pub lod_bias: u32,
    pub coord_type_x: u32,
    pub coord_type_y: u32,
    pub coord_type_z: u32,
    pub coord_type_w: u32,
}

impl Format for TexWord1 {
    ghost table = { format.word1_table };

    ghost values = { format.word1_values };

    ghost of_word = { format.word1_of };

    fn read(word: u32) -> TexWord1 {
        TexWord1 {
            dst_gpr: bits::read(word, fields::FETCH_DST_GPR),
            dst_rel: bits::read(word, fields::FETCH_DST_REL),
            reserved1_8: bits::read(word, fields::RESERVED1_8),
            dst_sel_x: bits::read(word, fields::DST_SEL_X),
            dst_sel_y: bits::read(word, fields::DST_SEL_Y),
            dst_sel_z: bits::read(word, fields::DST_SEL_Z),
            dst_sel_w: bits::read(word, fields::DST_SEL_W),
            lod_bias: bits::read(word, fields::LOD_BIAS),
            coord_type_x: bits::read(word, fields::COORD_TYPE_X),
            coord_type_y: bits::read(word, fields::COORD_TYPE_Y),
            coord_type_z: bits::read(word, fields::COORD_TYPE_Z),
            coord_type_w: bits::read(word, fields::COORD_TYPE_W),
        }
    }

    fn write(self) -> u32 {
        bits::put(self.dst_gpr, fields::FETCH_DST_GPR)
            | bits::put(self.dst_rel, fields::FETCH_DST_REL)
            | bits::put(self.reserved1_8, fields::RESERVED1_8)
            | bits::put(self.dst_sel_x, fields::DST_SEL_X)
            | bits::put(self.dst_sel_y, fields::DST_SEL_Y)
            | bits::put(self.dst_sel_z, fields::DST_SEL_Z)
            | bits::put(self.dst_sel_w, fields::DST_SEL_W)
            | bits::put(self.lod_bias, fields::LOD_BIAS)
            | bits::put(self.coord_type_x, fields::COORD_TYPE_X)
            | bits::put(self.coord_type_y, fields::COORD_TYPE_Y)
            | bits::put(self.coord_type_z, fields::COORD_TYPE_Z)
            | bits::put(self.coord_type_w, fields::COORD_TYPE_W)
    }

    fn fits(self) -> bool {
        bits::fits(self.dst_gpr, fields::FETCH_DST_GPR)
            & bits::fits(self.dst_rel, fields::FETCH_DST_REL)
            & bits::fits(self.reserved1_8, fields::RESERVED1_8)
            & bits::fits(self.dst_sel_x, fields::DST_SEL_X)
            & bits::fits(self.dst_sel_y, fields::DST_SEL_Y)
            & bits::fits(self.dst_sel_z, fields::DST_SEL_Z)
            & bits::fits(self.dst_sel_w, fields::DST_SEL_W)
            & bits::fits(self.lod_bias, fields::LOD_BIAS)
            & bits::fits(self.coord_type_x, fields::COORD_TYPE_X)
            & bits::fits(self.coord_type_y, fields::COORD_TYPE_Y)
            & bits::fits(self.coord_type_z, fields::COORD_TYPE_Z)
            & bits::fits(self.coord_type_w, fields::COORD_TYPE_W)
    }

    ghost laws = { format.word1_laws };
}

// TEX_WORD2.
#[derive(Clone, Copy)]
pub struct TexWord2 {
    pub offset_x: u32,
    pub offset_y: u32,
    pub offset_z: u32,
    pub sampler_id: u32,
    pub src_sel_x: u32,
    pub src_sel_y: u32,
    pub src_sel_z: u32,
    pub src_sel_w: u32,
}

impl Format for TexWord2 {
    ghost table = { format.word2_table };

    ghost values = { format.word2_values };

    ghost of_word = { format.word2_of };

    fn read(word: u32) -> TexWord2 {
        TexWord2 {
            offset_x: bits::read(word, fields::OFFSET_X),
            offset_y: bits::read(word, fields::OFFSET_Y),
            offset_z: bits::read(word, fields::OFFSET_Z),
            sampler_id: bits::read(word, fields::SAMPLER_ID),
            src_sel_x: bits::read(word, fields::TEX_SRC_SEL_X),
            src_sel_y: bits::read(word, fields::SRC_SEL_Y),
            src_sel_z: bits::read(word, fields::SRC_SEL_Z),
            src_sel_w: bits::read(word, fields::SRC_SEL_W),
        }
    }

    fn write(self) -> u32 {
        bits::put(self.offset_x, fields::OFFSET_X)
            | bits::put(self.offset_y, fields::OFFSET_Y)
            | bits::put(self.offset_z, fields::OFFSET_Z)
            | bits::put(self.sampler_id, fields::SAMPLER_ID)
            | bits::put(self.src_sel_x, fields::TEX_SRC_SEL_X)
            | bits::put(self.src_sel_y, fields::SRC_SEL_Y)
            | bits::put(self.src_sel_z, fields::SRC_SEL_Z)
            | bits::put(self.src_sel_w, fields::SRC_SEL_W)
    }

    fn fits(self) -> bool {
        bits::fits(self.offset_x, fields::OFFSET_X)
            & bits::fits(self.offset_y, fields::OFFSET_Y)
            & bits::fits(self.offset_z, fields::OFFSET_Z)
            & bits::fits(self.sampler_id, fields::SAMPLER_ID)
            & bits::fits(self.src_sel_x, fields::TEX_SRC_SEL_X)
            & bits::fits(self.src_sel_y, fields::SRC_SEL_Y)
            & bits::fits(self.src_sel_z, fields::SRC_SEL_Z)
            & bits::fits(self.src_sel_w, fields::SRC_SEL_W)
    }

    ghost laws = { format.word2_laws };
}
