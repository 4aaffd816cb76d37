// Every field of every word format, by AMD's name, from its highest bit to its lowest. specs/Fields.antt is the table that a reader
// holds against the guide; each use of a constant here is proved against it.
use bits::Bits;

// ALU_WORD0.
pub const SRC0_SEL: Bits = Bits(8, 0);

pub const SRC0_REL: Bits = Bits(9, 9);

pub const SRC0_CHAN: Bits = Bits(11, 10);

pub const SRC0_NEG: Bits = Bits(12, 12);

pub const SRC1_SEL: Bits = Bits(21, 13);

pub const SRC1_REL: Bits = Bits(22, 22);

pub const SRC1_CHAN: Bits = Bits(24, 23);

pub const SRC1_NEG: Bits = Bits(25, 25);

pub const INDEX_MODE: Bits = Bits(28, 26);

pub const PRED_SEL: Bits = Bits(30, 29);

pub const LAST: Bits = Bits(31, 31);

// ALU_WORD1_OP2.
pub const SRC0_ABS: Bits = Bits(0, 0);

pub const SRC1_ABS: Bits = Bits(1, 1);

pub const UPDATE_EXECUTE_MASK: Bits = Bits(2, 2);

pub const UPDATE_PRED: Bits = Bits(3, 3);

pub const WRITE_MASK: Bits = Bits(4, 4);

pub const OMOD: Bits = Bits(6, 5);

pub const OP2_INST: Bits = Bits(17, 7);

// ALU_WORD1_OP3.
pub const SRC2_SEL: Bits = Bits(8, 0);

pub const SRC2_REL: Bits = Bits(9, 9);

pub const SRC2_CHAN: Bits = Bits(11, 10);

pub const SRC2_NEG: Bits = Bits(12, 12);

pub const OP3_INST: Bits = Bits(17, 13);

// both of them.
pub const BANK_SWIZZLE: Bits = Bits(20, 18);

pub const DST_GPR: Bits = Bits(27, 21);

pub const DST_REL: Bits = Bits(28, 28);

pub const DST_CHAN: Bits = Bits(30, 29);

pub const CLAMP: Bits = Bits(31, 31);

pub const OP3_MARK: Bits = Bits(17, 15);

// CF_WORD0 and CF_WORD1.
pub const ADDR: Bits = Bits(31, 0);

pub const POP_COUNT: Bits = Bits(2, 0);

pub const CF_CONST: Bits = Bits(7, 3);

pub const COND: Bits = Bits(9, 8);

pub const COUNT: Bits = Bits(12, 10);

pub const CALL_COUNT: Bits = Bits(18, 13);

pub const COUNT_3: Bits = Bits(19, 19);

pub const BIT_20: Bits = Bits(20, 20);

// CF_WORD1 and CF_ALLOC_EXPORT_WORD1; the last two CF_ALU_WORD1 too.
pub const END_OF_PROGRAM: Bits = Bits(21, 21);

pub const VALID_PIXEL_MODE: Bits = Bits(22, 22);

pub const CF_INST: Bits = Bits(29, 23);

pub const WHOLE_QUAD_MODE: Bits = Bits(30, 30);

pub const BARRIER: Bits = Bits(31, 31);

pub const CF_ALU_MARK: Bits = Bits(29, 29);

// CF_ALU_WORD0 and CF_ALU_WORD1.
pub const CF_ALU_ADDR: Bits = Bits(21, 0);

pub const KCACHE_BANK0: Bits = Bits(25, 22);

pub const KCACHE_BANK1: Bits = Bits(29, 26);

pub const KCACHE_MODE0: Bits = Bits(31, 30);

pub const KCACHE_MODE1: Bits = Bits(1, 0);

pub const KCACHE_ADDR0: Bits = Bits(9, 2);

pub const KCACHE_ADDR1: Bits = Bits(17, 10);

pub const CF_ALU_COUNT: Bits = Bits(24, 18);

pub const ALT_CONST: Bits = Bits(25, 25);

pub const CF_ALU_INST: Bits = Bits(29, 26);

// CF_ALLOC_EXPORT_WORD0.
pub const ARRAY_BASE: Bits = Bits(12, 0);

pub const TYPE: Bits = Bits(14, 13);

pub const RW_GPR: Bits = Bits(21, 15);

pub const RW_REL: Bits = Bits(22, 22);

pub const INDEX_GPR: Bits = Bits(29, 23);

pub const ELEM_SIZE: Bits = Bits(31, 30);

// CF_ALLOC_EXPORT_WORD1_SWIZ.
pub const SEL_X: Bits = Bits(2, 0);

pub const SEL_Y: Bits = Bits(5, 3);

pub const SEL_Z: Bits = Bits(8, 6);

pub const SEL_W: Bits = Bits(11, 9);

pub const BITS_16_12: Bits = Bits(16, 12);

pub const BURST_COUNT: Bits = Bits(20, 17);

// fetches: words 0 and 1 of both kinds.
pub const FETCH_INST: Bits = Bits(4, 0);

pub const FETCH_WHOLE_QUAD: Bits = Bits(7, 7);

pub const FETCH_SRC_GPR: Bits = Bits(22, 16);

pub const FETCH_SRC_REL: Bits = Bits(23, 23);

pub const FETCH_DST_GPR: Bits = Bits(6, 0);

pub const FETCH_DST_REL: Bits = Bits(7, 7);

pub const RESERVED1_8: Bits = Bits(8, 8);

pub const DST_SEL_X: Bits = Bits(11, 9);

pub const DST_SEL_Y: Bits = Bits(14, 12);

pub const DST_SEL_Z: Bits = Bits(17, 15);

pub const DST_SEL_W: Bits = Bits(20, 18);

// TEX_WORD0, TEX_WORD1 and TEX_WORD2.
pub const BC_FRAC_MODE: Bits = Bits(5, 5);

pub const RESERVED0_6: Bits = Bits(6, 6);

pub const RESOURCE_ID: Bits = Bits(15, 8);

pub const TEX_ALT_CONST: Bits = Bits(24, 24);

pub const RESERVED0_25: Bits = Bits(31, 25);

pub const LOD_BIAS: Bits = Bits(27, 21);

pub const COORD_TYPE_X: Bits = Bits(28, 28);

pub const COORD_TYPE_Y: Bits = Bits(29, 29);

pub const COORD_TYPE_Z: Bits = Bits(30, 30);

pub const COORD_TYPE_W: Bits = Bits(31, 31);

pub const OFFSET_X: Bits = Bits(4, 0);

pub const OFFSET_Y: Bits = Bits(9, 5);

pub const OFFSET_Z: Bits = Bits(14, 10);

pub const SAMPLER_ID: Bits = Bits(19, 15);

pub const TEX_SRC_SEL_X: Bits = Bits(22, 20);

pub const SRC_SEL_Y: Bits = Bits(25, 23);

pub const SRC_SEL_Z: Bits = Bits(28, 26);

pub const SRC_SEL_W: Bits = Bits(31, 29);

// VTX_WORD0, VTX_WORD1_SEM, both of VTX_WORD1, VTX_WORD2.
pub const FETCH_TYPE: Bits = Bits(6, 5);

pub const BUFFER_ID: Bits = Bits(15, 8);

pub const VTX_SRC_SEL_X: Bits = Bits(25, 24);

pub const MEGA_FETCH_COUNT: Bits = Bits(31, 26);

pub const SEMANTIC_ID: Bits = Bits(7, 0);

pub const USE_CONST_FIELDS: Bits = Bits(21, 21);

pub const DATA_FORMAT: Bits = Bits(27, 22);

pub const NUM_FORMAT_ALL: Bits = Bits(29, 28);

pub const FORMAT_COMP_ALL: Bits = Bits(30, 30);

pub const SRF_MODE_ALL: Bits = Bits(31, 31);

pub const OFFSET: Bits = Bits(15, 0);

pub const ENDIAN_SWAP: Bits = Bits(17, 16);

pub const CONST_BUF_NO_STRIDE: Bits = Bits(18, 18);

pub const MEGA_FETCH: Bits = Bits(19, 19);

pub const VTX_ALT_CONST: Bits = Bits(20, 20);

pub const RESERVED2_21: Bits = Bits(31, 21);
