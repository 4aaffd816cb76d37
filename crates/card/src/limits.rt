// What lines 3 to 7 of a card allow, each said once: for a card that is read and for one that a caller makes.
ghost use Rattle.std.specs.Prelude.{◌≡◌, ◌+◌, leb};
ghost use Rattle.card.specs.Text.{from◌to◌};

// The numbers from `low` to `high`.
#[derive(Clone, Copy)]
pub struct Limits {
    pub low: u32,
    pub high: u32,
}

impl Limits {
    pub fn allow(self, n: usize) -> bool
        ensures { result ≡ (from self.low to self.high) n }
    {
        (self.low as usize..=self.high as usize).contains(&n)
    }
}

pub const GPRS: Limits = Limits { low: 1, high: 128 };

pub const TEMPS: Limits = Limits { low: 0, high: 4 };

pub const CONSTS: Limits = Limits { low: 0, high: 256 };

pub const STACK: Limits = Limits { low: 0, high: 32 };

pub const QUADS: Limits = Limits { low: 1, high: 8192 };

// Line 4's second demand: gprs+temps at most 128.
pub fn fit_together(gprs: u32, temps: u32) -> bool
    ensures { result ≡ leb (gprs + temps) 128 }
{
    gprs as u64 + temps as u64 <= 128
}
