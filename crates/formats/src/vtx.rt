// Vertex fetches: VTX_WORD0, VTX_WORD1_GPR or VTX_WORD1_SEM, and VTX_WORD2, section 10.3.
#![tactic(auto, using(bits::proofs::OfTables::joined_word, bits::proofs::OfTables::tested_fits), unfolding(crate::specs::Vtx::word0_fields, crate::specs::Vtx::gpr_fields, crate::specs::Vtx::sem_fields, crate::specs::Vtx::word2_fields))]

ghost use Rattle.formats.specs.Vtx as format;

use crate::{Format, fields};

// VTX_WORD0.
#[derive(Clone, Copy)]
pub struct VtxWord0 {
    pub vtx_inst: u32,
    pub fetch_type: u32,
    pub fetch_whole_quad: u32,
    pub buffer_id: u32,
    pub src_gpr: u32,
    pub src_rel: u32,
    pub src_sel_x: u32,
    pub mega_fetch_count: u32,
}

impl Format for VtxWord0 {
    ghost table = { format.word0_table };

    ghost values = { format.word0_values };

    ghost of_word = { format.word0_of };

    fn read(word: u32) -> VtxWord0 {
        VtxWord0 {
            vtx_inst: bits::read(word, fields::FETCH_INST),
            fetch_type: bits::read(word, fields::FETCH_TYPE),
            fetch_whole_quad: bits::read(word, fields::FETCH_WHOLE_QUAD),
            buffer_id: bits::read(word, fields::BUFFER_ID),
            src_gpr: bits::read(word, fields::FETCH_SRC_GPR),
            src_rel: bits::read(word, fields::FETCH_SRC_REL),
            src_sel_x: bits::read(word, fields::VTX_SRC_SEL_X),
            mega_fetch_count: bits::read(word, fields::MEGA_FETCH_COUNT),
        }
    }

    fn write(self) -> u32 {
        bits::put(self.vtx_inst, fields::FETCH_INST)
            | bits::put(self.fetch_type, fields::FETCH_TYPE)
            | bits::put(self.fetch_whole_quad, fields::FETCH_WHOLE_QUAD)
            | bits::put(self.buffer_id, fields::BUFFER_ID)
            | bits::put(self.src_gpr, fields::FETCH_SRC_GPR)
            | bits::put(self.src_rel, fields::FETCH_SRC_REL)
            | bits::put(self.src_sel_x, fields::VTX_SRC_SEL_X)
            | bits::put(self.mega_fetch_count, fields::MEGA_FETCH_COUNT)
    }

    fn fits(self) -> bool {
        bits::fits(self.vtx_inst, fields::FETCH_INST)
            & bits::fits(self.fetch_type, fields::FETCH_TYPE)
            & bits::fits(self.fetch_whole_quad, fields::FETCH_WHOLE_QUAD)
            & bits::fits(self.buffer_id, fields::BUFFER_ID)
            & bits::fits(self.src_gpr, fields::FETCH_SRC_GPR)
            & bits::fits(self.src_rel, fields::FETCH_SRC_REL)
            & bits::fits(self.src_sel_x, fields::VTX_SRC_SEL_X)
            & bits::fits(self.mega_fetch_count, fields::MEGA_FETCH_COUNT)
    }

    ghost laws = { format.word0_laws };
}

// VTX_WORD1_GPR.
#[derive(Clone, Copy)]
pub struct VtxWord1Gpr {
    pub dst_gpr: u32,
    pub dst_rel: u32,
    // bit 8, carried
    pub reserved1_8: u32,
    pub dst_sel_x: u32,
    pub dst_sel_y: u32,
    pub dst_sel_z: u32,
    pub dst_sel_w: u32,
    pub use_const_fields: u32,
    pub data_format: u32,
    pub num_format_all: u32,
    pub format_comp_all: u32,
    pub srf_mode_all: u32,
}

impl Format for VtxWord1Gpr {
    ghost table = { format.gpr_table };

    ghost values = { format.gpr_values };

    ghost of_word = { format.gpr_of };

    fn read(word: u32) -> VtxWord1Gpr {
        VtxWord1Gpr {
            dst_gpr: bits::read(word, fields::FETCH_DST_GPR),
            dst_rel: bits::read(word, fields::FETCH_DST_REL),
            reserved1_8: bits::read(word, fields::RESERVED1_8),
            dst_sel_x: bits::read(word, fields::DST_SEL_X),
            dst_sel_y: bits::read(word, fields::DST_SEL_Y),
            dst_sel_z: bits::read(word, fields::DST_SEL_Z),
            dst_sel_w: bits::read(word, fields::DST_SEL_W),
            use_const_fields: bits::read(word, fields::USE_CONST_FIELDS),
            data_format: bits::read(word, fields::DATA_FORMAT),
            num_format_all: bits::read(word, fields::NUM_FORMAT_ALL),
            format_comp_all: bits::read(word, fields::FORMAT_COMP_ALL),
            srf_mode_all: bits::read(word, fields::SRF_MODE_ALL),
        }
    }

    fn write(self) -> u32 {
        bits::put(self.dst_gpr, fields::FETCH_DST_GPR)
            | bits::put(self.dst_rel, fields::FETCH_DST_REL)
            | bits::put(self.reserved1_8, fields::RESERVED1_8)
            | bits::put(self.dst_sel_x, fields::DST_SEL_X)
            | bits::put(self.dst_sel_y, fields::DST_SEL_Y)
            | bits::put(self.dst_sel_z, fields::DST_SEL_Z)
            | bits::put(self.dst_sel_w, fields::DST_SEL_W)
            | bits::put(self.use_const_fields, fields::USE_CONST_FIELDS)
            | bits::put(self.data_format, fields::DATA_FORMAT)
            | bits::put(self.num_format_all, fields::NUM_FORMAT_ALL)
            | bits::put(self.format_comp_all, fields::FORMAT_COMP_ALL)
            | bits::put(self.srf_mode_all, fields::SRF_MODE_ALL)
    }

    fn fits(self) -> bool {
        bits::fits(self.dst_gpr, fields::FETCH_DST_GPR)
            & bits::fits(self.dst_rel, fields::FETCH_DST_REL)
            & bits::fits(self.reserved1_8, fields::RESERVED1_8)
            & bits::fits(self.dst_sel_x, fields::DST_SEL_X)
            & bits::fits(self.dst_sel_y, fields::DST_SEL_Y)
            & bits::fits(self.dst_sel_z, fields::DST_SEL_Z)
            & bits::fits(self.dst_sel_w, fields::DST_SEL_W)
            & bits::fits(self.use_const_fields, fields::USE_CONST_FIELDS)
            & bits::fits(self.data_format, fields::DATA_FORMAT)
            & bits::fits(self.num_format_all, fields::NUM_FORMAT_ALL)
            & bits::fits(self.format_comp_all, fields::FORMAT_COMP_ALL)
            & bits::fits(self.srf_mode_all, fields::SRF_MODE_ALL)
    }

    ghost laws = { format.gpr_laws };
}

// VTX_WORD1_SEM.
#[derive(Clone, Copy)]
pub struct VtxWord1Sem {
    pub semantic_id: u32,
    // bit 8, carried
    pub reserved1_8: u32,
    pub dst_sel_x: u32,
    pub dst_sel_y: u32,
    pub dst_sel_z: u32,
    pub dst_sel_w: u32,
    pub use_const_fields: u32,
    pub data_format: u32,
    pub num_format_all: u32,
    pub format_comp_all: u32,
    pub srf_mode_all: u32,
}

impl Format for VtxWord1Sem {
    ghost table = { format.sem_table };

    ghost values = { format.sem_values };

    ghost of_word = { format.sem_of };

    fn read(word: u32) -> VtxWord1Sem {
        VtxWord1Sem {
            semantic_id: bits::read(word, fields::SEMANTIC_ID),
            reserved1_8: bits::read(word, fields::RESERVED1_8),
            dst_sel_x: bits::read(word, fields::DST_SEL_X),
            dst_sel_y: bits::read(word, fields::DST_SEL_Y),
            dst_sel_z: bits::read(word, fields::DST_SEL_Z),
            dst_sel_w: bits::read(word, fields::DST_SEL_W),
            use_const_fields: bits::read(word, fields::USE_CONST_FIELDS),
            data_format: bits::read(word, fields::DATA_FORMAT),
            num_format_all: bits::read(word, fields::NUM_FORMAT_ALL),
            format_comp_all: bits::read(word, fields::FORMAT_COMP_ALL),
            srf_mode_all: bits::read(word, fields::SRF_MODE_ALL),
        }
    }

    fn write(self) -> u32 {
        bits::put(self.semantic_id, fields::SEMANTIC_ID)
            | bits::put(self.reserved1_8, fields::RESERVED1_8)
            | bits::put(self.dst_sel_x, fields::DST_SEL_X)
            | bits::put(self.dst_sel_y, fields::DST_SEL_Y)
            | bits::put(self.dst_sel_z, fields::DST_SEL_Z)
            | bits::put(self.dst_sel_w, fields::DST_SEL_W)
            | bits::put(self.use_const_fields, fields::USE_CONST_FIELDS)
            | bits::put(self.data_format, fields::DATA_FORMAT)
            | bits::put(self.num_format_all, fields::NUM_FORMAT_ALL)
            | bits::put(self.format_comp_all, fields::FORMAT_COMP_ALL)
            | bits::put(self.srf_mode_all, fields::SRF_MODE_ALL)
    }

    fn fits(self) -> bool {
        bits::fits(self.semantic_id, fields::SEMANTIC_ID)
            & bits::fits(self.reserved1_8, fields::RESERVED1_8)
            & bits::fits(self.dst_sel_x, fields::DST_SEL_X)
            & bits::fits(self.dst_sel_y, fields::DST_SEL_Y)
            & bits::fits(self.dst_sel_z, fields::DST_SEL_Z)
            & bits::fits(self.dst_sel_w, fields::DST_SEL_W)
            & bits::fits(self.use_const_fields, fields::USE_CONST_FIELDS)
            & bits::fits(self.data_format, fields::DATA_FORMAT)
            & bits::fits(self.num_format_all, fields::NUM_FORMAT_ALL)
            & bits::fits(self.format_comp_all, fields::FORMAT_COMP_ALL)
            & bits::fits(self.srf_mode_all, fields::SRF_MODE_ALL)
    }

    ghost laws = { format.sem_laws };
}

// VTX_WORD2.
#[derive(Clone, Copy)]
pub struct VtxWord2 {
    pub offset: u32,
    pub endian_swap: u32,
    pub const_buf_no_stride: u32,
    pub mega_fetch: u32,
    pub alt_const: u32,
    // bits 31:21, carried
    pub reserved2_21: u32,
}

impl Format for VtxWord2 {
    ghost table = { format.word2_table };

    ghost values = { format.word2_values };

    ghost of_word = { format.word2_of };

    fn read(word: u32) -> VtxWord2 {
        VtxWord2 {
            offset: bits::read(word, fields::OFFSET),
            endian_swap: bits::read(word, fields::ENDIAN_SWAP),
            const_buf_no_stride: bits::read(word, fields::CONST_BUF_NO_STRIDE),
            mega_fetch: bits::read(word, fields::MEGA_FETCH),
            alt_const: bits::read(word, fields::VTX_ALT_CONST),
            reserved2_21: bits::read(word, fields::RESERVED2_21),
        }
    }

    fn write(self) -> u32 {
        bits::put(self.offset, fields::OFFSET)
            | bits::put(self.endian_swap, fields::ENDIAN_SWAP)
            | bits::put(self.const_buf_no_stride, fields::CONST_BUF_NO_STRIDE)
            | bits::put(self.mega_fetch, fields::MEGA_FETCH)
            | bits::put(self.alt_const, fields::VTX_ALT_CONST)
            | bits::put(self.reserved2_21, fields::RESERVED2_21)
    }

    fn fits(self) -> bool {
        bits::fits(self.offset, fields::OFFSET)
            & bits::fits(self.endian_swap, fields::ENDIAN_SWAP)
            & bits::fits(self.const_buf_no_stride, fields::CONST_BUF_NO_STRIDE)
            & bits::fits(self.mega_fetch, fields::MEGA_FETCH)
            & bits::fits(self.alt_const, fields::VTX_ALT_CONST)
            & bits::fits(self.reserved2_21, fields::RESERVED2_21)
    }

    ghost laws = { format.word2_laws };
}
