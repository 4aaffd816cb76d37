// The words of fetches as values of a row.
ghost use Rattle.formats.specs.Tex as tex;
ghost use Rattle.formats.specs.Vtx as vtx;
ghost use Rattle.codec_for_c.specs.InRow.{tex_word0_in_row, tex_word1_in_row, tex_word2_in_row, vtx_word0_in_row, vtx_gpr_in_row, vtx_sem_in_row, vtx_word2_in_row};

use crate::in_row::{InRow, Lift};
use bits::lift;
use formats::fields;
use formats::tex::{TexWord0, TexWord1, TexWord2};
use formats::vtx::{VtxWord0, VtxWord1Gpr, VtxWord1Sem, VtxWord2};

impl InRow for TexWord0 {
    const COUNT: usize = 9;

    ghost COUNT = { 9 };

    ghost row_values = { tex.word0_values };

    ghost at = { tex.word0_at };

    fn get(values: &[u32]) -> TexWord0 {
        TexWord0 {
            tex_inst: values[0],
            bc_frac_mode: values[1],
            reserved0_6: values[2],
            fetch_whole_quad: values[3],
            resource_id: values[4],
            src_gpr: values[5],
            src_rel: values[6],
            alt_const: values[7],
            reserved0_25: values[8],
        }
    }

    fn put(self, values: &mut [u32]) {
        values[..9].copy_from_slice(&[
            self.tex_inst,
            self.bc_frac_mode,
            self.reserved0_6,
            self.fetch_whole_quad,
            self.resource_id,
            self.src_gpr,
            self.src_rel,
            self.alt_const,
            self.reserved0_25,
        ]);
    }

    ghost laws = { tex_word0_in_row };
}

impl Lift for TexWord0 {
    fn lift(self) -> u32 {
        lift(self.tex_inst, fields::FETCH_INST)
            | lift(self.bc_frac_mode, fields::BC_FRAC_MODE)
            | lift(self.reserved0_6, fields::RESERVED0_6)
            | lift(self.fetch_whole_quad, fields::FETCH_WHOLE_QUAD)
            | lift(self.resource_id, fields::RESOURCE_ID)
            | lift(self.src_gpr, fields::FETCH_SRC_GPR)
            | lift(self.src_rel, fields::FETCH_SRC_REL)
            | lift(self.alt_const, fields::TEX_ALT_CONST)
            | lift(self.reserved0_25, fields::RESERVED0_25)
    }
}

impl InRow for TexWord1 {
    const COUNT: usize = 12;

    ghost COUNT = { 12 };

    ghost row_values = { tex.word1_values };

    ghost at = { tex.word1_at };

    fn get(values: &[u32]) -> TexWord1 {
        TexWord1 {
            dst_gpr: values[0],
            dst_rel: values[1],
            reserved1_8: values[2],
            dst_sel_x: values[3],
            dst_sel_y: values[4],
            dst_sel_z: values[5],
            dst_sel_w: values[6],
            lod_bias: values[7],
            coord_type_x: values[8],
            coord_type_y: values[9],
            coord_type_z: values[10],
            coord_type_w: values[11],
        }
    }

    fn put(self, values: &mut [u32]) {
        values[..12].copy_from_slice(&[
            self.dst_gpr,
            self.dst_rel,
            self.reserved1_8,
            self.dst_sel_x,
            self.dst_sel_y,
            self.dst_sel_z,
            self.dst_sel_w,
            self.lod_bias,
            self.coord_type_x,
            self.coord_type_y,
            self.coord_type_z,
            self.coord_type_w,
        ]);
    }

    ghost laws = { tex_word1_in_row };
}

impl Lift for TexWord1 {
    fn lift(self) -> u32 {
        lift(self.dst_gpr, fields::FETCH_DST_GPR)
            | lift(self.dst_rel, fields::FETCH_DST_REL)
            | lift(self.reserved1_8, fields::RESERVED1_8)
            | lift(self.dst_sel_x, fields::DST_SEL_X)
            | lift(self.dst_sel_y, fields::DST_SEL_Y)
            | lift(self.dst_sel_z, fields::DST_SEL_Z)
            | lift(self.dst_sel_w, fields::DST_SEL_W)
            | lift(self.lod_bias, fields::LOD_BIAS)
            | lift(self.coord_type_x, fields::COORD_TYPE_X)
            | lift(self.coord_type_y, fields::COORD_TYPE_Y)
            | lift(self.coord_type_z, fields::COORD_TYPE_Z)
            | lift(self.coord_type_w, fields::COORD_TYPE_W)
    }
}

impl InRow for TexWord2 {
    const COUNT: usize = 8;

    ghost COUNT = { 8 };

    ghost row_values = { tex.word2_values };

    ghost at = { tex.word2_at };

    fn get(values: &[u32]) -> TexWord2 {
        TexWord2 {
            offset_x: values[0],
            offset_y: values[1],
            offset_z: values[2],
            sampler_id: values[3],
            src_sel_x: values[4],
            src_sel_y: values[5],
            src_sel_z: values[6],
            src_sel_w: values[7],
        }
    }

    fn put(self, values: &mut [u32]) {
        values[..8].copy_from_slice(&[
            self.offset_x,
            self.offset_y,
            self.offset_z,
            self.sampler_id,
            self.src_sel_x,
            self.src_sel_y,
            self.src_sel_z,
            self.src_sel_w,
        ]);
    }

    ghost laws = { tex_word2_in_row };
}

impl Lift for TexWord2 {
    fn lift(self) -> u32 {
        lift(self.offset_x, fields::OFFSET_X)
            | lift(self.offset_y, fields::OFFSET_Y)
            | lift(self.offset_z, fields::OFFSET_Z)
            | lift(self.sampler_id, fields::SAMPLER_ID)
            | lift(self.src_sel_x, fields::TEX_SRC_SEL_X)
            | lift(self.src_sel_y, fields::SRC_SEL_Y)
            | lift(self.src_sel_z, fields::SRC_SEL_Z)
            | lift(self.src_sel_w, fields::SRC_SEL_W)
    }
}

impl InRow for VtxWord0 {
    const COUNT: usize = 8;

    ghost COUNT = { 8 };

    ghost row_values = { vtx.word0_values };

    ghost at = { vtx.word0_at };

    fn get(values: &[u32]) -> VtxWord0 {
        VtxWord0 {
            vtx_inst: values[0],
            fetch_type: values[1],
            fetch_whole_quad: values[2],
            buffer_id: values[3],
            src_gpr: values[4],
            src_rel: values[5],
            src_sel_x: values[6],
            mega_fetch_count: values[7],
        }
    }

    fn put(self, values: &mut [u32]) {
        values[..8].copy_from_slice(&[
            self.vtx_inst,
            self.fetch_type,
            self.fetch_whole_quad,
            self.buffer_id,
            self.src_gpr,
            self.src_rel,
            self.src_sel_x,
            self.mega_fetch_count,
        ]);
    }

    ghost laws = { vtx_word0_in_row };
}

impl Lift for VtxWord0 {
    fn lift(self) -> u32 {
        lift(self.vtx_inst, fields::FETCH_INST)
            | lift(self.fetch_type, fields::FETCH_TYPE)
            | lift(self.fetch_whole_quad, fields::FETCH_WHOLE_QUAD)
            | lift(self.buffer_id, fields::BUFFER_ID)
            | lift(self.src_gpr, fields::FETCH_SRC_GPR)
            | lift(self.src_rel, fields::FETCH_SRC_REL)
            | lift(self.src_sel_x, fields::VTX_SRC_SEL_X)
            | lift(self.mega_fetch_count, fields::MEGA_FETCH_COUNT)
    }
}

impl InRow for VtxWord1Gpr {
    const COUNT: usize = 12;

    ghost COUNT = { 12 };

    ghost row_values = { vtx.gpr_values };

    ghost at = { vtx.gpr_at };

    fn get(values: &[u32]) -> VtxWord1Gpr {
        VtxWord1Gpr {
            dst_gpr: values[0],
            dst_rel: values[1],
            reserved1_8: values[2],
            dst_sel_x: values[3],
            dst_sel_y: values[4],
            dst_sel_z: values[5],
            dst_sel_w: values[6],
            use_const_fields: values[7],
            data_format: values[8],
            num_format_all: values[9],
            format_comp_all: values[10],
            srf_mode_all: values[11],
        }
    }

    fn put(self, values: &mut [u32]) {
        values[..12].copy_from_slice(&[
            self.dst_gpr,
            self.dst_rel,
            self.reserved1_8,
            self.dst_sel_x,
            self.dst_sel_y,
            self.dst_sel_z,
            self.dst_sel_w,
            self.use_const_fields,
            self.data_format,
            self.num_format_all,
            self.format_comp_all,
            self.srf_mode_all,
        ]);
    }

    ghost laws = { vtx_gpr_in_row };
}

impl Lift for VtxWord1Gpr {
    fn lift(self) -> u32 {
        lift(self.dst_gpr, fields::FETCH_DST_GPR)
            | lift(self.dst_rel, fields::FETCH_DST_REL)
            | lift(self.reserved1_8, fields::RESERVED1_8)
            | lift(self.dst_sel_x, fields::DST_SEL_X)
            | lift(self.dst_sel_y, fields::DST_SEL_Y)
            | lift(self.dst_sel_z, fields::DST_SEL_Z)
            | lift(self.dst_sel_w, fields::DST_SEL_W)
            | lift(self.use_const_fields, fields::USE_CONST_FIELDS)
            | lift(self.data_format, fields::DATA_FORMAT)
            | lift(self.num_format_all, fields::NUM_FORMAT_ALL)
            | lift(self.format_comp_all, fields::FORMAT_COMP_ALL)
            | lift(self.srf_mode_all, fields::SRF_MODE_ALL)
    }
}

impl InRow for VtxWord1Sem {
    const COUNT: usize = 11;

    ghost COUNT = { 11 };

    ghost row_values = { vtx.sem_values };

    ghost at = { vtx.sem_at };

    fn get(values: &[u32]) -> VtxWord1Sem {
        VtxWord1Sem {
            semantic_id: values[0],
            reserved1_8: values[1],
            dst_sel_x: values[2],
            dst_sel_y: values[3],
            dst_sel_z: values[4],
            dst_sel_w: values[5],
            use_const_fields: values[6],
            data_format: values[7],
            num_format_all: values[8],
            format_comp_all: values[9],
            srf_mode_all: values[10],
        }
    }

    fn put(self, values: &mut [u32]) {
        values[..11].copy_from_slice(&[
            self.semantic_id,
            self.reserved1_8,
            self.dst_sel_x,
            self.dst_sel_y,
            self.dst_sel_z,
            self.dst_sel_w,
            self.use_const_fields,
            self.data_format,
            self.num_format_all,
            self.format_comp_all,
            self.srf_mode_all,
        ]);
    }

    ghost laws = { vtx_sem_in_row };
}

impl Lift for VtxWord1Sem {
    fn lift(self) -> u32 {
        lift(self.semantic_id, fields::SEMANTIC_ID)
            | lift(self.reserved1_8, fields::RESERVED1_8)
            | lift(self.dst_sel_x, fields::DST_SEL_X)
            | lift(self.dst_sel_y, fields::DST_SEL_Y)
            | lift(self.dst_sel_z, fields::DST_SEL_Z)
            | lift(self.dst_sel_w, fields::DST_SEL_W)
            | lift(self.use_const_fields, fields::USE_CONST_FIELDS)
            | lift(self.data_format, fields::DATA_FORMAT)
            | lift(self.num_format_all, fields::NUM_FORMAT_ALL)
            | lift(self.format_comp_all, fields::FORMAT_COMP_ALL)
            | lift(self.srf_mode_all, fields::SRF_MODE_ALL)
    }
}

impl InRow for VtxWord2 {
    const COUNT: usize = 6;

    ghost COUNT = { 6 };

    ghost row_values = { vtx.word2_values };

    ghost at = { vtx.word2_at };

    fn get(values: &[u32]) -> VtxWord2 {
        VtxWord2 {
            offset: values[0],
            endian_swap: values[1],
            const_buf_no_stride: values[2],
            mega_fetch: values[3],
            alt_const: values[4],
            reserved2_21: values[5],
        }
    }

    fn put(self, values: &mut [u32]) {
        values[..6].copy_from_slice(&[
            self.offset,
            self.endian_swap,
            self.const_buf_no_stride,
            self.mega_fetch,
            self.alt_const,
            self.reserved2_21,
        ]);
    }

    ghost laws = { vtx_word2_in_row };
}

impl Lift for VtxWord2 {
    fn lift(self) -> u32 {
        lift(self.offset, fields::OFFSET)
            | lift(self.endian_swap, fields::ENDIAN_SWAP)
            | lift(self.const_buf_no_stride, fields::CONST_BUF_NO_STRIDE)
            | lift(self.mega_fetch, fields::MEGA_FETCH)
            | lift(self.alt_const, fields::VTX_ALT_CONST)
            | lift(self.reserved2_21, fields::RESERVED2_21)
    }
}
