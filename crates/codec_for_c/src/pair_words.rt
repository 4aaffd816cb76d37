// The words of pairs as values of a row. ADDR and COUNT are cut to 32 bits: no record that was decoded has more, nor one that can be encoded.
ghost use Rattle.formats.specs.Cf as cf;
ghost use Rattle.formats.specs.CfAlu as cf_alu;
ghost use Rattle.formats.specs.Export as export;
ghost use Rattle.formats.specs.Alu as alu;
ghost use Rattle.codec_for_c.specs.Values.{cf_alu_word0_row, cf_alu_word1_row, cf_word0_row, cf_word1_row};
ghost use Rattle.codec_for_c.specs.InRow.{cf_alu_word0_in_row, cf_alu_word1_in_row, cf_word0_in_row, cf_word1_in_row, export_word0_in_row, export_word1_in_row, alu_word0_in_row, op2_in_row, op3_in_row};

use crate::in_row::InRow;
use formats::alu::{AluWord0, AluWord1Op2, AluWord1Op3};
use formats::cf::{CfWord0, CfWord1};
use formats::cf_alu::{CfAluWord0, CfAluWord1};
use formats::export::{CfAllocExportWord0, CfAllocExportWord1Swiz};
use units::{Quadwords, Slots};

impl InRow for CfAluWord0 {
    const COUNT: usize = 4;

    ghost COUNT = { 4 };

    ghost row_values = { cf_alu_word0_row };

    ghost at = { cf_alu.word0_at };

    fn get(values: &[u32]) -> CfAluWord0 {
        CfAluWord0 {
            addr: Quadwords(values[0] as usize),
            kcache_bank0: values[1],
            kcache_bank1: values[2],
            kcache_mode0: values[3],
        }
    }

    fn put(self, values: &mut [u32]) {
        values[..4].copy_from_slice(&[
            (self.addr.0 % 0x1_0000_0000) as u32,
            self.kcache_bank0,
            self.kcache_bank1,
            self.kcache_mode0,
        ]);
    }

    ghost laws = { cf_alu_word0_in_row };
}

impl InRow for CfAluWord1 {
    const COUNT: usize = 8;

    ghost COUNT = { 8 };

    ghost row_values = { cf_alu_word1_row };

    ghost at = { cf_alu.word1_at };

    fn get(values: &[u32]) -> CfAluWord1 {
        CfAluWord1 {
            kcache_mode1: values[0],
            kcache_addr0: values[1],
            kcache_addr1: values[2],
            count: Slots(values[3] as usize),
            alt_const: values[4],
            cf_inst: values[5],
            whole_quad_mode: values[6],
            barrier: values[7],
        }
    }

    fn put(self, values: &mut [u32]) {
        values[..8].copy_from_slice(&[
            self.kcache_mode1,
            self.kcache_addr0,
            self.kcache_addr1,
            (self.count.0 % 0x1_0000_0000) as u32,
            self.alt_const,
            self.cf_inst,
            self.whole_quad_mode,
            self.barrier,
        ]);
    }

    ghost laws = { cf_alu_word1_in_row };
}

impl InRow for CfWord0 {
    const COUNT: usize = 1;

    ghost COUNT = { 1 };

    ghost row_values = { cf_word0_row };

    ghost at = { cf.word0_at };

    fn get(values: &[u32]) -> CfWord0 {
        CfWord0 {
            addr: Quadwords(values[0] as usize),
        }
    }

    fn put(self, values: &mut [u32]) {
        values[..1].copy_from_slice(&[(self.addr.0 % 0x1_0000_0000) as u32]);
    }

    ghost laws = { cf_word0_in_row };
}

impl InRow for CfWord1 {
    const COUNT: usize = 11;

    ghost COUNT = { 11 };

    ghost row_values = { cf_word1_row };

    ghost at = { cf.word1_at };

    fn get(values: &[u32]) -> CfWord1 {
        CfWord1 {
            pop_count: values[0],
            cf_const: values[1],
            cond: values[2],
            count: Slots(values[3] as usize),
            call_count: values[4],
            rest: values[5],
            end_of_program: values[6],
            valid_pixel_mode: values[7],
            cf_inst: values[8],
            whole_quad_mode: values[9],
            barrier: values[10],
        }
    }

    fn put(self, values: &mut [u32]) {
        values[..11].copy_from_slice(&[
            self.pop_count,
            self.cf_const,
            self.cond,
            (self.count.0 % 0x1_0000_0000) as u32,
            self.call_count,
            self.rest,
            self.end_of_program,
            self.valid_pixel_mode,
            self.cf_inst,
            self.whole_quad_mode,
            self.barrier,
        ]);
    }

    ghost laws = { cf_word1_in_row };
}

impl InRow for CfAllocExportWord0 {
    const COUNT: usize = 6;

    ghost COUNT = { 6 };

    ghost row_values = { export.word0_values };

    ghost at = { export.word0_at };

    fn get(values: &[u32]) -> CfAllocExportWord0 {
        CfAllocExportWord0 {
            array_base: values[0],
            export_type: values[1],
            rw_gpr: values[2],
            rw_rel: values[3],
            index_gpr: values[4],
            elem_size: values[5],
        }
    }

    fn put(self, values: &mut [u32]) {
        values[..6].copy_from_slice(&[
            self.array_base,
            self.export_type,
            self.rw_gpr,
            self.rw_rel,
            self.index_gpr,
            self.elem_size,
        ]);
    }

    ghost laws = { export_word0_in_row };
}

impl InRow for CfAllocExportWord1Swiz {
    const COUNT: usize = 11;

    ghost COUNT = { 11 };

    ghost row_values = { export.word1_values };

    ghost at = { export.word1_at };

    fn get(values: &[u32]) -> CfAllocExportWord1Swiz {
        CfAllocExportWord1Swiz {
            sel_x: values[0],
            sel_y: values[1],
            sel_z: values[2],
            sel_w: values[3],
            rest: values[4],
            burst_count: values[5],
            end_of_program: values[6],
            valid_pixel_mode: values[7],
            cf_inst: values[8],
            whole_quad_mode: values[9],
            barrier: values[10],
        }
    }

    fn put(self, values: &mut [u32]) {
        values[..11].copy_from_slice(&[
            self.sel_x,
            self.sel_y,
            self.sel_z,
            self.sel_w,
            self.rest,
            self.burst_count,
            self.end_of_program,
            self.valid_pixel_mode,
            self.cf_inst,
            self.whole_quad_mode,
            self.barrier,
        ]);
    }

    ghost laws = { export_word1_in_row };
}

impl InRow for AluWord0 {
    const COUNT: usize = 11;

    ghost COUNT = { 11 };

    ghost row_values = { alu.word0_values };

    ghost at = { alu.word0_at };

    fn get(values: &[u32]) -> AluWord0 {
        AluWord0 {
            src0_sel: values[0],
            src0_rel: values[1],
            src0_chan: values[2],
            src0_neg: values[3],
            src1_sel: values[4],
            src1_rel: values[5],
            src1_chan: values[6],
            src1_neg: values[7],
            index_mode: values[8],
            pred_sel: values[9],
            last: values[10],
        }
    }

    fn put(self, values: &mut [u32]) {
        values[..11].copy_from_slice(&[
            self.src0_sel,
            self.src0_rel,
            self.src0_chan,
            self.src0_neg,
            self.src1_sel,
            self.src1_rel,
            self.src1_chan,
            self.src1_neg,
            self.index_mode,
            self.pred_sel,
            self.last,
        ]);
    }

    ghost laws = { alu_word0_in_row };
}

impl InRow for AluWord1Op2 {
    const COUNT: usize = 12;

    ghost COUNT = { 12 };

    ghost row_values = { alu.op2_values };

    ghost at = { alu.op2_at };

    fn get(values: &[u32]) -> AluWord1Op2 {
        AluWord1Op2 {
            src0_abs: values[0],
            src1_abs: values[1],
            update_execute_mask: values[2],
            update_pred: values[3],
            write_mask: values[4],
            omod: values[5],
            alu_inst: values[6],
            bank_swizzle: values[7],
            dst_gpr: values[8],
            dst_rel: values[9],
            dst_chan: values[10],
            clamp: values[11],
        }
    }

    fn put(self, values: &mut [u32]) {
        values[..12].copy_from_slice(&[
            self.src0_abs,
            self.src1_abs,
            self.update_execute_mask,
            self.update_pred,
            self.write_mask,
            self.omod,
            self.alu_inst,
            self.bank_swizzle,
            self.dst_gpr,
            self.dst_rel,
            self.dst_chan,
            self.clamp,
        ]);
    }

    ghost laws = { op2_in_row };
}

impl InRow for AluWord1Op3 {
    const COUNT: usize = 10;

    ghost COUNT = { 10 };

    ghost row_values = { alu.op3_values };

    ghost at = { alu.op3_at };

    fn get(values: &[u32]) -> AluWord1Op3 {
        AluWord1Op3 {
            src2_sel: values[0],
            src2_rel: values[1],
            src2_chan: values[2],
            src2_neg: values[3],
            alu_inst: values[4],
            bank_swizzle: values[5],
            dst_gpr: values[6],
            dst_rel: values[7],
            dst_chan: values[8],
            clamp: values[9],
        }
    }

    fn put(self, values: &mut [u32]) {
        values[..10].copy_from_slice(&[
            self.src2_sel,
            self.src2_rel,
            self.src2_chan,
            self.src2_neg,
            self.alu_inst,
            self.bank_swizzle,
            self.dst_gpr,
            self.dst_rel,
            self.dst_chan,
            self.clamp,
        ]);
    }

    ghost laws = { op3_in_row };
}
