// Fields of a 32-bit word: the one place where shifts and masks are written and proved.
//
// Every function is defined at every offset and width; its definition says what lies behind bit 31. At an offset and a width that are
// literals a call compiles to the shift and the mask alone (docs/MACHINE-CODE.md).
#![tactic(auto)]

ghost use Rattle.std.specs.Prelude.{◌≡◌, ◌^◌, ltb};
ghost use Rattle.bits.specs.Fields.{field_of, width_of, value_in};
ghost use Rattle.bits.specs.Tables.{place_of};
ghost use Rattle.bits.specs.Code.{lifted_of, with_field};

// A field of a word, from its highest bit to its lowest, as the papers write 28:26.
#[derive(Clone, Copy, Debug, PartialEq, Eq)]
pub struct Bits(pub u32, pub u32);

// How many bits a field has; a word has 32.
fn width_of(f: Bits) -> u32
    ensures { result ≡ width_of f }
{
    match f.0.checked_sub(f.1) {
        Some(n) => n.min(31) + 1,
        None => 0,
    }
}

// The value of a field in a word.
pub fn read(word: u32, f: Bits) -> u32
    ensures { result ≡ value_in word f }
{
    field(word, f.1, width_of(f))
}

// A value in its field's place, cut to the field's width.
pub fn put(value: u32, f: Bits) -> u32
    ensures { result ≡ place_of value f.1 (width_of f) }
{
    place(value, f.1, width_of(f))
}

// A value in its field's place, as it is: of one within the field's width what `put` makes, without the mask.
pub fn lift(value: u32, f: Bits) -> u32
    ensures { result ≡ lifted_of value f.1 }
{
    value.unbounded_shl(f.1)
}

// Whether a value is within a field's width.
pub fn fits(value: u32, f: Bits) -> bool
    ensures { result ≡ ltb value (2 ^ width_of f) }
{
    field(value, 0, width_of(f)) == value
}

// The `width` bits of `word` from bit `offset` on.
pub fn field(word: u32, offset: u32, width: u32) -> u32
    ensures { result ≡ field_of word offset width }
{
    let from_offset = word.unbounded_shr(offset);
    if width >= 32 {
        return from_offset;
    }
    from_offset & ((1 << width) - 1)
}

// The low `width` bits of `value`, moved up to bit `offset`.
pub fn place(value: u32, offset: u32, width: u32) -> u32
    ensures { result ≡ place_of value offset width }
{
    field(value, 0, width).unbounded_shl(offset)
}

// `word` with the low `width` bits of `value` in place of its own from bit `offset` on.
pub fn with_field(word: u32, offset: u32, width: u32, value: u32) -> u32
    ensures { result ≡ with_field word offset width value }
{
    let end = offset.saturating_add(width);
    let above = word.unbounded_shr(end).unbounded_shl(end);
    let own = place(value, offset, width);
    let below = field(word, 0, offset);
    above | own | below
}

// A word with one bit set; all others stay.
pub fn with_bit(word: u32, offset: u32) -> u32
    ensures { result ≡ with_field word offset 1 1 }
{
    word | 1u32.unbounded_shl(offset)
}
