// The class of every OP2 and OP3 number: a row for each, in order, with its mnemonic in document 002. Where NOT_TAKEN stands beside a mnemonic,
// that has 64 in it, or is in none of the tables 4.4 to 4.6, or chapter 9 has another number for it.
//
// The definition is specs/Alu.antt. A row that says anything else is refused by the check of this crate: docs/OPCODES.md shows how to change
// one, and what is said where only one of the two is changed.
//
// The rows stand in eights. Each is joined to one word, and a match chooses the word: of that the compiler makes a table in read-only data,
// where an array of 256 rows would be written to the stack anew for each number (docs/MACHINE-CODE.md).
ghost use Rattle.std.specs.Prelude.{◌≡◌, ◌<◌};
ghost use Rattle.opcodes.specs.Code.{eight_at, joined_of};

// Numbers for the unit classes, and below for the issue kinds, since eight rows are one word of read-only data (docs/MACHINE-CODE.md).
pub(crate) const NOT_TAKEN: u8 = 0;

pub(crate) const ANY: u8 = 1;

pub(crate) const VECTOR: u8 = 2;

pub(crate) const TRANS: u8 = 3;

// The issue kinds.
pub(crate) const PLAIN: u8 = 0;

pub(crate) const PREDICATE: u8 = 1;

pub(crate) const KILL: u8 = 2;

pub(crate) const MOVA: u8 = 3;

pub(crate) const REDUCTION: u8 = 4;

// A class is its unit, its issue kind times ISSUE, and the number of sources that are read times SOURCE (specs/Code.antt, code_of).
pub(crate) const ISSUE: u8 = 4;

pub(crate) const SOURCE: u8 = 32;

// Plain ones by their unit. The digit is how many sources are read.
const ANY_1: u8 = ANY + SOURCE;

const ANY_2: u8 = ANY + 2 * SOURCE;

const ANY_3: u8 = ANY + 3 * SOURCE;

const VECTOR_2: u8 = VECTOR + 2 * SOURCE;

const TRANS_1: u8 = TRANS + SOURCE;

const TRANS_2: u8 = TRANS + 2 * SOURCE;

const TRANS_3: u8 = TRANS + 3 * SOURCE;

// The others by their issue kind: setters and kills run in any unit, MOVA and reductions in the vector units.
const PREDICATE_0: u8 = ANY + PREDICATE * ISSUE;

const PREDICATE_1: u8 = ANY + PREDICATE * ISSUE + SOURCE;

const PREDICATE_2: u8 = ANY + PREDICATE * ISSUE + 2 * SOURCE;

const KILL_2: u8 = ANY + KILL * ISSUE + 2 * SOURCE;

const MOVA_1: u8 = VECTOR + MOVA * ISSUE + SOURCE;

const REDUCTION_1: u8 = VECTOR + REDUCTION * ISSUE + SOURCE;

const REDUCTION_2: u8 = VECTOR + REDUCTION * ISSUE + 2 * SOURCE;

// ---- OP2
const OP2_0_TO_7: [u8; 8] = [
    ANY_2, // 0 ADD, and NOP in chapter 9
    ANY_2, // 1 MUL
    ANY_2, // 2 MUL_IEEE
    ANY_2, // 3 MAX
    ANY_2, // 4 MIN
    ANY_2, // 5 MAX_DX10
    ANY_2, // 6 MIN_DX10
    NOT_TAKEN, // 7 FREXP_64
];

const OP2_8_TO_15: [u8; 8] = [
    ANY_2, // 8 SETE
    ANY_2, // 9 SETGT
    ANY_2, // 10 SETGE
    ANY_2, // 11 SETNE
    ANY_2, // 12 SETE_DX10
    ANY_2, // 13 SETGT_DX10
    ANY_2, // 14 SETGE_DX10
    ANY_2, // 15 SETNE_DX10
];

const OP2_16_TO_23: [u8; 8] = [
    ANY_1, // 16 FRACT
    ANY_1, // 17 TRUNC
    ANY_1, // 18 CEIL
    ANY_1, // 19 RNDNE
    ANY_1, // 20 FLOOR
    MOVA_1, // 21 MOVA
    MOVA_1, // 22 MOVA_FLOOR
    NOT_TAKEN, // 23 ADD_64
];

const OP2_24_TO_31: [u8; 8] = [
    MOVA_1, // 24 MOVA_INT
    ANY_1, // 25 MOV
    NOT_TAKEN, // 26 NOP in chapter 10
    NOT_TAKEN, // 27 MUL_64
    NOT_TAKEN, // 28 FLT64_TO_FLT32
    NOT_TAKEN, // 29 FLT32_TO_FLT64
    NOT_TAKEN, // 30
    NOT_TAKEN, // 31
];

const OP2_32_TO_39: [u8; 8] = [
    PREDICATE_2, // 32 PRED_SETE
    PREDICATE_2, // 33 PRED_SETGT
    PREDICATE_2, // 34 PRED_SETGE
    PREDICATE_2, // 35 PRED_SETNE
    PREDICATE_1, // 36 PRED_SET_INV
    PREDICATE_2, // 37 PRED_SET_POP
    PREDICATE_0, // 38 PRED_SET_CLR
    PREDICATE_1, // 39 PRED_SET_RESTORE
];

const OP2_40_TO_47: [u8; 8] = [
    PREDICATE_2, // 40 PRED_SETE_PUSH
    PREDICATE_2, // 41 PRED_SETGT_PUSH
    PREDICATE_2, // 42 PRED_SETGE_PUSH
    PREDICATE_2, // 43 PRED_SETNE_PUSH
    KILL_2, // 44 KILLE
    KILL_2, // 45 KILLGT
    KILL_2, // 46 KILLGE
    KILL_2, // 47 KILLNE
];

const OP2_48_TO_55: [u8; 8] = [
    ANY_2, // 48 AND_INT
    ANY_2, // 49 OR_INT
    ANY_2, // 50 XOR_INT
    ANY_1, // 51 NOT_INT
    VECTOR_2, // 52 ADD_INT
    ANY_2, // 53 SUB_INT
    ANY_2, // 54 MAX_INT
    ANY_2, // 55 MIN_INT
];

const OP2_56_TO_63: [u8; 8] = [
    ANY_2, // 56 MAX_UINT
    ANY_2, // 57 MIN_UINT
    ANY_2, // 58 SETE_INT
    ANY_2, // 59 SETGT_INT
    ANY_2, // 60 SETGE_INT
    ANY_2, // 61 SETNE_INT
    ANY_2, // 62 SETGT_UINT
    ANY_2, // 63 SETGE_UINT
];

const OP2_64_TO_71: [u8; 8] = [
    NOT_TAKEN, // 64
    NOT_TAKEN, // 65
    PREDICATE_2, // 66 PRED_SETE_INT
    PREDICATE_2, // 67 PRED_SETGT_INT
    PREDICATE_2, // 68 PRED_SETGE_INT
    PREDICATE_2, // 69 PRED_SETNE_INT
    PREDICATE_2, // 70 PRED_SETLT_INT
    PREDICATE_2, // 71 PRED_SETLE_INT
];

const OP2_72_TO_79: [u8; 8] = [
    NOT_TAKEN, // 72
    NOT_TAKEN, // 73
    PREDICATE_2, // 74 PRED_SETE_PUSH_INT
    PREDICATE_2, // 75 PRED_SETGT_PUSH_INT
    PREDICATE_2, // 76 PRED_SETGE_PUSH_INT
    PREDICATE_2, // 77 PRED_SETNE_PUSH_INT
    PREDICATE_2, // 78 PRED_SETLT_PUSH_INT
    PREDICATE_2, // 79 PRED_SETLE_PUSH_INT
];

const OP2_80_TO_87: [u8; 8] = [
    REDUCTION_2, // 80 DOT4
    REDUCTION_2, // 81 DOT4_IEEE
    REDUCTION_2, // 82 CUBE
    REDUCTION_1, // 83 MAX4
    NOT_TAKEN, // 84
    NOT_TAKEN, // 85
    NOT_TAKEN, // 86
    NOT_TAKEN, // 87
];

const OP2_88_TO_95: [u8; 8] = [
    NOT_TAKEN, // 88
    NOT_TAKEN, // 89
    NOT_TAKEN, // 90
    NOT_TAKEN, // 91
    NOT_TAKEN, // 92
    NOT_TAKEN, // 93
    NOT_TAKEN, // 94
    NOT_TAKEN, // 95
];

const OP2_96_TO_103: [u8; 8] = [
    NOT_TAKEN, // 96
    TRANS_1, // 97 EXP_IEEE
    TRANS_1, // 98 LOG_CLAMPED
    TRANS_1, // 99 LOG_IEEE
    TRANS_1, // 100 RECIP_CLAMPED
    TRANS_1, // 101 RECIP_FF
    TRANS_1, // 102 RECIP_IEEE
    TRANS_1, // 103 RECIPSQRT_CLAMPED
];

const OP2_104_TO_111: [u8; 8] = [
    TRANS_1, // 104 RECIPSQRT_FF
    TRANS_1, // 105 RECIPSQRT_IEEE
    TRANS_1, // 106 SQRT_IEEE
    TRANS_1, // 107 FLT_TO_INT
    TRANS_1, // 108 INT_TO_FLT
    TRANS_1, // 109 UINT_TO_FLT
    TRANS_1, // 110 SIN
    TRANS_1, // 111 COS
];

const OP2_112_TO_119: [u8; 8] = [
    ANY_2, // 112 ASHR_INT
    ANY_2, // 113 LSHR_INT
    ANY_2, // 114 LSHL_INT
    TRANS_2, // 115 MULLO_INT
    TRANS_2, // 116 MULHI_INT
    TRANS_2, // 117 MULLO_UINT
    TRANS_2, // 118 MULHI_UINT
    TRANS_1, // 119 RECIP_INT
];

const OP2_120_TO_127: [u8; 8] = [
    TRANS_1, // 120 RECIP_UINT
    NOT_TAKEN, // 121
    NOT_TAKEN, // 122 LDEXP_64
    NOT_TAKEN, // 123 FRACT_64
    NOT_TAKEN, // 124 PRED_SETGT_64
    NOT_TAKEN, // 125 PRED_SETE_64
    NOT_TAKEN, // 126 PRED_SETGE_64
    NOT_TAKEN, // 127
];

const OP2_128_TO_135: [u8; 8] = [
    NOT_TAKEN, // 128
    NOT_TAKEN, // 129
    NOT_TAKEN, // 130
    NOT_TAKEN, // 131
    NOT_TAKEN, // 132
    NOT_TAKEN, // 133
    NOT_TAKEN, // 134
    NOT_TAKEN, // 135
];

const OP2_136_TO_143: [u8; 8] = [
    NOT_TAKEN, // 136
    NOT_TAKEN, // 137
    NOT_TAKEN, // 138
    NOT_TAKEN, // 139
    NOT_TAKEN, // 140
    NOT_TAKEN, // 141
    NOT_TAKEN, // 142
    NOT_TAKEN, // 143
];

const OP2_144_TO_151: [u8; 8] = [
    NOT_TAKEN, // 144
    NOT_TAKEN, // 145
    NOT_TAKEN, // 146
    NOT_TAKEN, // 147
    NOT_TAKEN, // 148
    NOT_TAKEN, // 149
    NOT_TAKEN, // 150
    NOT_TAKEN, // 151
];

const OP2_152_TO_159: [u8; 8] = [
    NOT_TAKEN, // 152
    NOT_TAKEN, // 153
    NOT_TAKEN, // 154
    NOT_TAKEN, // 155
    NOT_TAKEN, // 156
    NOT_TAKEN, // 157
    NOT_TAKEN, // 158
    NOT_TAKEN, // 159
];

const OP2_160_TO_167: [u8; 8] = [
    NOT_TAKEN, // 160
    NOT_TAKEN, // 161
    NOT_TAKEN, // 162
    NOT_TAKEN, // 163
    NOT_TAKEN, // 164
    NOT_TAKEN, // 165
    NOT_TAKEN, // 166
    NOT_TAKEN, // 167
];

const OP2_168_TO_175: [u8; 8] = [
    NOT_TAKEN, // 168
    NOT_TAKEN, // 169
    NOT_TAKEN, // 170
    NOT_TAKEN, // 171
    NOT_TAKEN, // 172
    NOT_TAKEN, // 173
    NOT_TAKEN, // 174
    NOT_TAKEN, // 175
];

const OP2_176_TO_183: [u8; 8] = [
    NOT_TAKEN, // 176
    NOT_TAKEN, // 177
    NOT_TAKEN, // 178
    NOT_TAKEN, // 179
    NOT_TAKEN, // 180
    NOT_TAKEN, // 181
    NOT_TAKEN, // 182
    NOT_TAKEN, // 183
];

const OP2_184_TO_191: [u8; 8] = [
    NOT_TAKEN, // 184
    NOT_TAKEN, // 185
    NOT_TAKEN, // 186
    NOT_TAKEN, // 187
    NOT_TAKEN, // 188
    NOT_TAKEN, // 189
    NOT_TAKEN, // 190
    NOT_TAKEN, // 191
];

const OP2_192_TO_199: [u8; 8] = [
    NOT_TAKEN, // 192
    NOT_TAKEN, // 193
    NOT_TAKEN, // 194
    NOT_TAKEN, // 195
    NOT_TAKEN, // 196
    NOT_TAKEN, // 197
    NOT_TAKEN, // 198
    NOT_TAKEN, // 199
];

const OP2_200_TO_207: [u8; 8] = [
    NOT_TAKEN, // 200
    NOT_TAKEN, // 201
    NOT_TAKEN, // 202
    NOT_TAKEN, // 203
    NOT_TAKEN, // 204
    NOT_TAKEN, // 205
    NOT_TAKEN, // 206
    NOT_TAKEN, // 207
];

const OP2_208_TO_215: [u8; 8] = [
    NOT_TAKEN, // 208
    NOT_TAKEN, // 209
    NOT_TAKEN, // 210
    NOT_TAKEN, // 211
    NOT_TAKEN, // 212
    NOT_TAKEN, // 213
    NOT_TAKEN, // 214
    NOT_TAKEN, // 215
];

const OP2_216_TO_223: [u8; 8] = [
    NOT_TAKEN, // 216
    NOT_TAKEN, // 217
    NOT_TAKEN, // 218
    NOT_TAKEN, // 219
    NOT_TAKEN, // 220
    NOT_TAKEN, // 221
    NOT_TAKEN, // 222
    NOT_TAKEN, // 223
];

const OP2_224_TO_231: [u8; 8] = [
    NOT_TAKEN, // 224
    NOT_TAKEN, // 225
    NOT_TAKEN, // 226
    NOT_TAKEN, // 227
    NOT_TAKEN, // 228
    NOT_TAKEN, // 229
    NOT_TAKEN, // 230
    NOT_TAKEN, // 231
];

const OP2_232_TO_239: [u8; 8] = [
    NOT_TAKEN, // 232
    NOT_TAKEN, // 233
    NOT_TAKEN, // 234
    NOT_TAKEN, // 235
    NOT_TAKEN, // 236
    NOT_TAKEN, // 237
    NOT_TAKEN, // 238
    NOT_TAKEN, // 239
];

const OP2_240_TO_247: [u8; 8] = [
    NOT_TAKEN, // 240
    NOT_TAKEN, // 241
    NOT_TAKEN, // 242
    NOT_TAKEN, // 243
    NOT_TAKEN, // 244
    NOT_TAKEN, // 245
    NOT_TAKEN, // 246
    NOT_TAKEN, // 247
];

const OP2_248_TO_255: [u8; 8] = [
    NOT_TAKEN, // 248
    NOT_TAKEN, // 249
    NOT_TAKEN, // 250
    NOT_TAKEN, // 251
    NOT_TAKEN, // 252
    NOT_TAKEN, // 253
    NOT_TAKEN, // 254
    NOT_TAKEN, // 255
];

// ---- OP3
const OP3_0_TO_7: [u8; 8] = [
    NOT_TAKEN, // 0
    NOT_TAKEN, // 1
    NOT_TAKEN, // 2
    NOT_TAKEN, // 3
    NOT_TAKEN, // 4
    NOT_TAKEN, // 5
    NOT_TAKEN, // 6
    NOT_TAKEN, // 7
];

const OP3_8_TO_15: [u8; 8] = [
    NOT_TAKEN, // 8 MULADD_64
    NOT_TAKEN, // 9 MULADD_64_M2
    NOT_TAKEN, // 10 MULADD_64_M4
    NOT_TAKEN, // 11 MULADD_64_D2
    TRANS_3, // 12 MUL_LIT
    TRANS_3, // 13 MUL_LIT_M2
    TRANS_3, // 14 MUL_LIT_M4
    TRANS_3, // 15 MUL_LIT_D2
];

const OP3_16_TO_23: [u8; 8] = [
    ANY_3, // 16 MULADD
    ANY_3, // 17 MULADD_M2
    ANY_3, // 18 MULADD_M4
    ANY_3, // 19 MULADD_D2
    ANY_3, // 20 MULADD_IEEE
    ANY_3, // 21 MULADD_IEEE_M2
    ANY_3, // 22 MULADD_IEEE_M4
    ANY_3, // 23 MULADD_IEEE_D2
];

const OP3_24_TO_31: [u8; 8] = [
    ANY_3, // 24 CMOVE
    ANY_3, // 25 CMOVGT
    ANY_3, // 26 CMOVGE
    NOT_TAKEN, // 27
    NOT_TAKEN, // 28 CMOVE_INT
    NOT_TAKEN, // 29 CMOVGT_INT
    NOT_TAKEN, // 30 CMOVGE_INT
    NOT_TAKEN, // 31
];

// ---- looked up by eights

pub(crate) const OP2_EIGHTS: u32 = 32;

pub(crate) const OP3_EIGHTS: u32 = 4;

// Eight rows as one word, the first in its lowest byte.
#[tactic(auto, unfolding(crate::specs::Code::joined_of))]
fn joined(rows: [u8; 8]) -> u64
    ensures { result ≡ joined_of rows }
{
    u64::from_le_bytes(rows)
}

// Eight rows: the 32 eights of OP2 in their order, then the four of OP3. One match for both, since a choice between two tables would be a branch
// that goes by what a pack mixes.
pub(crate) fn eight_at(k: u32) -> u64
    requires { k < 36 }
    ensures { result ≡ eight_at k }
{
    match k {
        0 => joined(OP2_0_TO_7),
        1 => joined(OP2_8_TO_15),
        2 => joined(OP2_16_TO_23),
        3 => joined(OP2_24_TO_31),
        4 => joined(OP2_32_TO_39),
        5 => joined(OP2_40_TO_47),
        6 => joined(OP2_48_TO_55),
        7 => joined(OP2_56_TO_63),
        8 => joined(OP2_64_TO_71),
        9 => joined(OP2_72_TO_79),
        10 => joined(OP2_80_TO_87),
        11 => joined(OP2_88_TO_95),
        12 => joined(OP2_96_TO_103),
        13 => joined(OP2_104_TO_111),
        14 => joined(OP2_112_TO_119),
        15 => joined(OP2_120_TO_127),
        16 => joined(OP2_128_TO_135),
        17 => joined(OP2_136_TO_143),
        18 => joined(OP2_144_TO_151),
        19 => joined(OP2_152_TO_159),
        20 => joined(OP2_160_TO_167),
        21 => joined(OP2_168_TO_175),
        22 => joined(OP2_176_TO_183),
        23 => joined(OP2_184_TO_191),
        24 => joined(OP2_192_TO_199),
        25 => joined(OP2_200_TO_207),
        26 => joined(OP2_208_TO_215),
        27 => joined(OP2_216_TO_223),
        28 => joined(OP2_224_TO_231),
        29 => joined(OP2_232_TO_239),
        30 => joined(OP2_240_TO_247),
        31 => joined(OP2_248_TO_255),
        32 => joined(OP3_0_TO_7),
        33 => joined(OP3_8_TO_15),
        34 => joined(OP3_16_TO_23),
        35 => joined(OP3_24_TO_31),
        _ => 0,
    }
}
