// ALU instructions: ALU_WORD0 with ALU_WORD1_OP2 or ALU_WORD1_OP3.
#![tactic(auto, using(bits::proofs::OfTables::joined_word, bits::proofs::OfTables::tested_fits), unfolding(crate::specs::Alu::word0_table, crate::specs::Alu::op2_table, crate::specs::Alu::op3_table))]

ghost use Rattle.formats.specs.Alu as format;

use crate::{Format, fields};

// ALU_WORD0.
#[derive(Clone, Copy)]
pub struct AluWord0 {
    pub src0_sel: u32,
    pub src0_rel: u32,
    pub src0_chan: u32,
    pub src0_neg: u32,
    pub src1_sel: u32,
    pub src1_rel: u32,
    pub src1_chan: u32,
    pub src1_neg: u32,
    pub index_mode: u32,
    pub pred_sel: u32,
    pub last: u32,
}

impl Format for AluWord0 {
    ghost table = { format.word0_table };

    ghost values = { format.word0_values };

    ghost of_word = { format.word0_of };

    fn read(word: u32) -> AluWord0 {
        AluWord0 {
            src0_sel: bits::read(word, fields::SRC0_SEL),
            src0_rel: bits::read(word, fields::SRC0_REL),
            src0_chan: bits::read(word, fields::SRC0_CHAN),
            src0_neg: bits::read(word, fields::SRC0_NEG),
            src1_sel: bits::read(word, fields::SRC1_SEL),
            src1_rel: bits::read(word, fields::SRC1_REL),
            src1_chan: bits::read(word, fields::SRC1_CHAN),
            src1_neg: bits::read(word, fields::SRC1_NEG),
            index_mode: bits::read(word, fields::INDEX_MODE),
            pred_sel: bits::read(word, fields::PRED_SEL),
            last: bits::read(word, fields::LAST),
        }
    }

    fn write(self) -> u32 {
        bits::put(self.src0_sel, fields::SRC0_SEL)
            | bits::put(self.src0_rel, fields::SRC0_REL)
            | bits::put(self.src0_chan, fields::SRC0_CHAN)
            | bits::put(self.src0_neg, fields::SRC0_NEG)
            | bits::put(self.src1_sel, fields::SRC1_SEL)
            | bits::put(self.src1_rel, fields::SRC1_REL)
            | bits::put(self.src1_chan, fields::SRC1_CHAN)
            | bits::put(self.src1_neg, fields::SRC1_NEG)
            | bits::put(self.index_mode, fields::INDEX_MODE)
            | bits::put(self.pred_sel, fields::PRED_SEL)
            | bits::put(self.last, fields::LAST)
    }

    fn fits(self) -> bool {
        bits::fits(self.src0_sel, fields::SRC0_SEL)
            & bits::fits(self.src0_rel, fields::SRC0_REL)
            & bits::fits(self.src0_chan, fields::SRC0_CHAN)
            & bits::fits(self.src0_neg, fields::SRC0_NEG)
            & bits::fits(self.src1_sel, fields::SRC1_SEL)
            & bits::fits(self.src1_rel, fields::SRC1_REL)
            & bits::fits(self.src1_chan, fields::SRC1_CHAN)
            & bits::fits(self.src1_neg, fields::SRC1_NEG)
            & bits::fits(self.index_mode, fields::INDEX_MODE)
            & bits::fits(self.pred_sel, fields::PRED_SEL)
            & bits::fits(self.last, fields::LAST)
    }

    ghost laws = { format.word0_laws };
}

// ALU_WORD1_OP2.
#[derive(Clone, Copy)]
pub struct AluWord1Op2 {
    pub src0_abs: u32,
    pub src1_abs: u32,
    pub update_execute_mask: u32,
    pub update_pred: u32,
    pub write_mask: u32,
    pub omod: u32,
    pub alu_inst: u32,
    pub bank_swizzle: u32,
    pub dst_gpr: u32,
    pub dst_rel: u32,
    // DST_ELEM in chapter 10
    pub dst_chan: u32,
    pub clamp: u32,
}

impl Format for AluWord1Op2 {
    ghost table = { format.op2_table };

    ghost values = { format.op2_values };

    ghost of_word = { format.op2_of };

    fn read(word: u32) -> AluWord1Op2 {
        AluWord1Op2 {
            src0_abs: bits::read(word, fields::SRC0_ABS),
            src1_abs: bits::read(word, fields::SRC1_ABS),
            update_execute_mask: bits::read(word, fields::UPDATE_EXECUTE_MASK),
            update_pred: bits::read(word, fields::UPDATE_PRED),
            write_mask: bits::read(word, fields::WRITE_MASK),
            omod: bits::read(word, fields::OMOD),
            alu_inst: bits::read(word, fields::OP2_INST),
            bank_swizzle: bits::read(word, fields::BANK_SWIZZLE),
            dst_gpr: bits::read(word, fields::DST_GPR),
            dst_rel: bits::read(word, fields::DST_REL),
            dst_chan: bits::read(word, fields::DST_CHAN),
            clamp: bits::read(word, fields::CLAMP),
        }
    }

    fn write(self) -> u32 {
        bits::put(self.src0_abs, fields::SRC0_ABS)
            | bits::put(self.src1_abs, fields::SRC1_ABS)
            | bits::put(self.update_execute_mask, fields::UPDATE_EXECUTE_MASK)
            | bits::put(self.update_pred, fields::UPDATE_PRED)
            | bits::put(self.write_mask, fields::WRITE_MASK)
            | bits::put(self.omod, fields::OMOD)
            | bits::put(self.alu_inst, fields::OP2_INST)
            | bits::put(self.bank_swizzle, fields::BANK_SWIZZLE)
            | bits::put(self.dst_gpr, fields::DST_GPR)
            | bits::put(self.dst_rel, fields::DST_REL)
            | bits::put(self.dst_chan, fields::DST_CHAN)
            | bits::put(self.clamp, fields::CLAMP)
    }

    fn fits(self) -> bool {
        bits::fits(self.src0_abs, fields::SRC0_ABS)
            & bits::fits(self.src1_abs, fields::SRC1_ABS)
            & bits::fits(self.update_execute_mask, fields::UPDATE_EXECUTE_MASK)
            & bits::fits(self.update_pred, fields::UPDATE_PRED)
            & bits::fits(self.write_mask, fields::WRITE_MASK)
            & bits::fits(self.omod, fields::OMOD)
            & bits::fits(self.alu_inst, fields::OP2_INST)
            & bits::fits(self.bank_swizzle, fields::BANK_SWIZZLE)
            & bits::fits(self.dst_gpr, fields::DST_GPR)
            & bits::fits(self.dst_rel, fields::DST_REL)
            & bits::fits(self.dst_chan, fields::DST_CHAN)
            & bits::fits(self.clamp, fields::CLAMP)
    }

    ghost laws = { format.op2_laws };
}

// ALU_WORD1_OP3.
#[derive(Clone, Copy)]
pub struct AluWord1Op3 {
    pub src2_sel: u32,
    pub src2_rel: u32,
    pub src2_chan: u32,
    pub src2_neg: u32,
    pub alu_inst: u32,
    pub bank_swizzle: u32,
    pub dst_gpr: u32,
    pub dst_rel: u32,
    // DST_ELEM in chapter 10
    pub dst_chan: u32,
    pub clamp: u32,
}

impl Format for AluWord1Op3 {
    ghost table = { format.op3_table };

    ghost values = { format.op3_values };

    ghost of_word = { format.op3_of };

    fn read(word: u32) -> AluWord1Op3 {
        AluWord1Op3 {
            src2_sel: bits::read(word, fields::SRC2_SEL),
            src2_rel: bits::read(word, fields::SRC2_REL),
            src2_chan: bits::read(word, fields::SRC2_CHAN),
            src2_neg: bits::read(word, fields::SRC2_NEG),
            alu_inst: bits::read(word, fields::OP3_INST),
            bank_swizzle: bits::read(word, fields::BANK_SWIZZLE),
            dst_gpr: bits::read(word, fields::DST_GPR),
            dst_rel: bits::read(word, fields::DST_REL),
            dst_chan: bits::read(word, fields::DST_CHAN),
            clamp: bits::read(word, fields::CLAMP),
        }
    }

    fn write(self) -> u32 {
        bits::put(self.src2_sel, fields::SRC2_SEL)
            | bits::put(self.src2_rel, fields::SRC2_REL)
            | bits::put(self.src2_chan, fields::SRC2_CHAN)
            | bits::put(self.src2_neg, fields::SRC2_NEG)
            | bits::put(self.alu_inst, fields::OP3_INST)
            | bits::put(self.bank_swizzle, fields::BANK_SWIZZLE)
            | bits::put(self.dst_gpr, fields::DST_GPR)
            | bits::put(self.dst_rel, fields::DST_REL)
            | bits::put(self.dst_chan, fields::DST_CHAN)
            | bits::put(self.clamp, fields::CLAMP)
    }

    fn fits(self) -> bool {
        bits::fits(self.src2_sel, fields::SRC2_SEL)
            & bits::fits(self.src2_rel, fields::SRC2_REL)
            & bits::fits(self.src2_chan, fields::SRC2_CHAN)
            & bits::fits(self.src2_neg, fields::SRC2_NEG)
            & bits::fits(self.alu_inst, fields::OP3_INST)
            & bits::fits(self.bank_swizzle, fields::BANK_SWIZZLE)
            & bits::fits(self.dst_gpr, fields::DST_GPR)
            & bits::fits(self.dst_rel, fields::DST_REL)
            & bits::fits(self.dst_chan, fields::DST_CHAN)
            & bits::fits(self.clamp, fields::CLAMP)
    }

    ghost laws = { format.op3_laws };
}
