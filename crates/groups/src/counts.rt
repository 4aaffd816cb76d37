// None, one or several: all that rule 14 and PUSH_BEFORE ask of a number.
ghost use Rattle.std.specs.Prelude.{◌≡◌};
ghost use Rattle.groups.specs.Code.{one_if, together};

use std::ops::Add;

#[derive(Clone, Copy, Debug, Default, PartialEq, Eq)]
pub enum Count {
    #[default]
    Nothing,
    One,
    Several,
}

// One if so, and else none.
impl From<bool> for Count {
    ghost from_gives = { λ yes count. count ≡ one_if yes };

    fn from(yes: bool) -> Count {
        if yes { Count::One } else { Count::Nothing }
    }
}

impl Add for Count {
    type Output = Count;

    ghost add_gives = { λ a b sum. sum ≡ together a b };

    fn add(self, other: Count) -> Count {
        match (self, other) {
            (Count::Nothing, count) => count,
            (count, Count::Nothing) => count,
            _ => Count::Several,
        }
    }
}
