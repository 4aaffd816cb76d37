// Decimal numbers in bytes. Nothing here knows the card.
ghost use Rattle.std.specs.Prelude.{◌≡◌};
ghost use Rattle.card.specs.Text.{number_in, of_32_bits};
ghost use Rattle.card.specs.Code.{malformed};

// The number of 32 bits that a whole text is, in decimal without leading zeros or signs.
#[inline(always)]
pub fn read_number(text: &[u8]) -> Option<u32>
    ensures { result ≡ number_in of_32_bits text.now }
{
    if is_malformed(text) {
        return None;
    }
    let mut n: u32 = 0;
    for b in text {
        if !b.is_ascii_digit() {
            return None;
        }
        n = n.checked_mul(10)?.checked_add((*b - b'0') as u32)?;
    }
    Some(n)
}

// Whether there are no digits, or the first is a leading zero.
fn is_malformed(text: &[u8]) -> bool
    ensures { result ≡ malformed text.now }
{
    matches!(text, [] | [b'0', _, ..])
}
