// A word's record as values of a row, and records behind one another.
ghost use Rattle.std.specs.Prelude.{◌≡◌, ℕ, true, ◌+◌, ◌≤◌, List, ◌∷◌, ◌++◌, length};
ghost use Rattle.bits.specs.Tables.{word_of, fits_table};
ghost use Rattle.codec_for_c.specs.Values.{written};
ghost use Rattle.codec_for_c.specs.InRow.{InRowLaws};

use crate::Row;
use formats::Format;

// The record of a word whose fields stand one behind the other in a row, in AMD's order.
pub(crate) trait InRow: Format {
    // How many there are.
    const COUNT: usize;

    ghost COUNT: { ℕ };

    // Their values, and the record that values hold from an element on.
    ghost row_values: { Self → List ℕ };

    ghost at: { ℕ → List ℕ → Self };

    fn get(values: &[u32]) -> Self
        requires { COUNT ≤ length values.now }
        ensures { result ≡ at 0 values.now };

    fn put(self, values: &mut [u32])
        requires { COUNT ≤ length values.old }
        ensures { values.new ≡ written (row_values self) values.old };

    ghost laws: { InRowLaws COUNT row_values at };
}

// One whose fields need no mask on the way to their places, where they are within their widths (`bits::lift`).
pub(crate) trait Lift: InRow {
    fn lift(self) -> u32
        requires { fits_table Self.table (Self.values self) ≡ true }
        ensures { result ≡ word_of Self.table (Self.values self) };
}

// The form and the records of two words over the beginning of a row. What fits is each form's own sum, which no law of one word could say.
pub(crate) fn put_two<A: InRow, B: InRow>(form: u32, a: A, b: B, row: &mut Row)
    requires { A.COUNT + B.COUNT ≤ 31 }
    ensures { row.new ≡ written (form ∷ A.row_values a ++ B.row_values b) row.old }
{
    row[0] = form;
    a.put(&mut row[1..]);
    b.put(&mut row[1 + A::COUNT..]);
}

// And of three.
pub(crate) fn put_three<A: InRow, B: InRow, C: InRow>(form: u32, a: A, b: B, c: C, row: &mut Row)
    requires { A.COUNT + B.COUNT + C.COUNT ≤ 31 }
    ensures { row.new ≡ written (form ∷ A.row_values a ++ B.row_values b ++ C.row_values c) row.old }
{
    put_two(form, a, b, row);
    c.put(&mut row[1 + A::COUNT + B::COUNT..]);
}

// The records behind the form.
pub(crate) fn get_two<A: InRow, B: InRow>(row: &Row) -> (A, B)
    requires { A.COUNT + B.COUNT ≤ 31 }
    ensures first { result.0 ≡ A.at 1 row.now }
    ensures second { result.1 ≡ B.at (1 + A.COUNT) row.now }
{
    (A::get(&row[1..]), B::get(&row[1 + A::COUNT..]))
}
