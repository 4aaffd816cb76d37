// A number in decimal, by hand: the library's `write!` may fail and its `InlineText` be cut, and neither promises not to where there is room.
ghost use Rattle.std.specs.Prelude.{◌≡◌, ◌<◌, ◌≤◌, drop};
ghost use Rattle.ascii.specs.Decimal.{digit_of, decimal};

// A number's digits, the last bytes of 20: these hold any number of 64 bits.
#[derive(Clone, Copy)]
pub(crate) struct Decimal {
    digits: [u8; 20],
    first: usize,
    ghost within: { first ≤ 20 },
}

impl Decimal {
    // The last digit comes first, so they are written backwards.
    pub(crate) fn of(n: usize) -> Decimal
        ensures { drop result.first result.digits ≡ decimal n }
    {
        let mut digits = [0u8; 20];
        let mut first = digits.len();
        let mut rest = n;
        loop {
            first -= 1;
            digits[first] = digit(rest % 10);
            rest /= 10;
            if rest == 0 {
                return Decimal { digits, first };
            }
        }
    }

    pub(crate) fn as_bytes(&self) -> &[u8]
        ensures { result.now ≡ drop self.now.first self.now.digits }
    {
        &self.digits[self.first..]
    }
}

fn digit(d: usize) -> u8
    requires { d < 10 }
    ensures { result ≡ digit_of d }
{
    b'0' + d as u8
}
