// A clause at a glance: whether it breaks nothing, in one loop over its instructions, without saying what is broken. An accepted pack breaks
// nothing, so nothing more is asked of most clauses; one that does not pass so is looked at again, group by group, by `alu_clause`.
//
// The loop is the judge's innermost, and no branch in it goes by what packs mix but for two: an instruction with a literal, and a group with more
// in it than plain instructions and one setter. Where a group ends is no branch: what was kept of it is masked away.
ghost use Rattle.std.specs.Prelude.{◌≡◌, ◌+◌, ◌*◌, ◌/◌, ◌%◌, ◌^◌, ◌<◌, true, false, not, ◌&&◌, length, nat_lt};
ghost use Rattle.checks.specs.Checks.{first_broken};
ghost use Rattle.checks.specs.Verdict.{Accepted};
ghost use Rattle.units.specs.Units.{low_at, high_at};
ghost use Rattle.formats.specs.Fields.{◌of◌, DST_CHAN};
ghost use Rattle.instructions.specs.Instruction.{has_relative};
ghost use Rattle.groups.specs.Group.{any_below};
ghost use Rattle.groups.specs.Code.{unit_by, is_straight, Issued};
ghost use Rattle.clauses.specs.Clause.{low_of, high_of, clause_checks};
ghost use Rattle.clauses.specs.CodeScreen.{is_wrong, with_one, kept_of, size_in, first_of, Ends};

use crate::AluClause;
use bits::read;
use formats::fields;
use groups::alu_units;
use screens::Gap;

// What is kept of the group that is being read, nothing by default.
#[derive(Clone, Copy, Default)]
pub(crate) struct Tally {
    // The units taken, as bits.
    pub taken: u32,
    // A digit of four bits for each issue kind: plain instructions, setters, kills, MOVAs, reductions.
    pub issued: u32,
    pub literals: u32,
}

impl AluClause<'_> {
    // Whether the clause breaks nothing. It may say no of one that doesn't.
    pub(crate) fn is_clean(&self) -> bool
        ensures { result ≡ true → Accepted ≡ first_broken (clause_checks self.now.kind self.now.push_before self.now.limits self.now.words.now self.now.place self.now.start self.now.slots) }
    {
        let words = self.words;
        let pixel = self.is_pixel();
        let gaps = screens::gaps(self.limits);
        // The slots' quadwords are counted plainly from here on: each is read at its words' numbers, without a conversion and its cap.
        let end = units::slot_quadword(self.start, self.slots).0;
        let mut at = self.start.0;
        let mut setters = 0;
        let mut seen = Tally::default();
        // No range of slots is gone through: the loop passes over literals.
        while at < end {
            let low = words[2 * at];
            let high = words[2 * at + 1];
            // Where the next instruction stands comes first: all that is asked of it waits for that.
            let literals = screens::more_literals(seen.literals, low, high);
            let last = read(low, fields::LAST);
            let next = at + 1 + only_if(last, literals) as usize;
            let code = instructions::class_code(high);
            let unit = unit_of(seen.taken, code, high);
            if is_wrong(&gaps, seen.taken, code, unit, low, high) {
                return false;
            }
            let more = seen.with_one(code, unit, literals);
            let issued = only_if(last, more.issued);
            if more.breaks_14(words, at, issued, pixel & (next == end)) {
                return false;
            }
            setters += (issued / 16 % 16) as usize;
            seen = more.kept(1 - last);
            at = next;
        }
        (at == end) & ((seen.issued == 0) & (!self.push_before | (setters == 1)))
    }
}

// x where `bit` is 1, and 0 where it is 0.
#[tactic(auto, using(crate::proofs::OfScreen::masked))]
fn only_if(bit: u32, x: u32) -> u32
    requires { bit < 2 }
    ensures { result ≡ bit * x }
{
    x & bit.wrapping_neg()
}

// The unit that an instruction of this class gets.
fn unit_of(taken: u32, code: u32, high: u32) -> u32
    ensures { result ≡ unit_by taken (code % 4) (DST_CHAN of high) }
{
    alu_units::unit_by_code(taken, code, read(high, fields::DST_CHAN))
}

// Rules 11, 12, 13 and 15.
#[tactic(auto, unfolding(crate::specs::CodeScreen::is_wrong))]
fn is_wrong(gaps: &[Gap; 32], taken: u32, code: u32, unit: u32, low: u32, high: u32) -> bool
    ensures { result ≡ is_wrong gaps.now taken code unit low high }
{
    if screens::breaks_alone(gaps, low, high) {
        return true;
    }
    (code % 4 == 0) | alu_units::is_bad_unit(taken, unit, read(high, fields::BANK_SWIZZLE))
}

impl Tally {
    // What is kept, with one instruction more, in that unit; with it the group has so many literal quadwords.
    #[tactic(auto, using(crate::proofs::OfScreen::weight_few))]
    fn with_one(self, code: u32, unit: u32, literals: u32) -> Tally
        requires { self.issued < 2 ^ 31 }
        ensures { result ≡ with_one self code unit literals }
    {
        Tally {
            taken: alu_units::occupy(self.taken, unit),
            issued: self.issued + weight(code),
            literals,
        }
    }

    // What is kept of it where the group goes on, and nothing where it has ended.
    fn kept(self, stays: u32) -> Tally
        requires { stays < 2 }
        ensures { result ≡ kept_of stays self }
    {
        Tally {
            taken: only_if(stays, self.taken),
            issued: only_if(stays, self.issued),
            literals: only_if(stays, self.literals),
        }
    }

    // Rule 14 where the group ends, which `issued` says: plain instructions and one setter break nothing, and most groups have nothing else.
    fn breaks_14(self, words: &[u32], at: usize, issued: u32, may_kill: bool) -> bool
        requires { Ends words.now at self.issued }
        ensures { result ≡ false → 31 < issued → Issued (low_of words.now (first_of at self.issued)) (high_of words.now (first_of at self.issued)) (size_in self.issued) self.taken may_kill }
    {
        if issued < 32 {
            return false;
        }
        self.breaks_counted(words, at, may_kill)
    }

    // The same by what is counted in the group whose last slot is quadword `at`; `may_kill` where kills may stand.
    fn breaks_counted(self, words: &[u32], at: usize, may_kill: bool) -> bool
        requires { Ends words.now at self.issued }
        ensures { result ≡ false → Issued (low_of words.now (first_of at self.issued)) (high_of words.now (first_of at self.issued)) (size_in self.issued) self.taken may_kill }
    {
        let issued = self.issued;
        let kills = issued / 256 % 16;
        if 1 < issued / 16 % 16 + kills {
            return true;
        }
        if (0 < kills) & !may_kill {
            return true;
        }
        let first = at + 1 - size_in(issued) as usize;
        let group = &words[2 * first..2 * at + 2];
        // No MOVA in a group with any relative bit set; a reduction fills all four vector units.
        let wrong_mova = 0 < issued / 4096 % 16 && has_relative(group);
        let wrong_reduction = 0 < issued / 65536 && !is_straight(group, self.taken);
        wrong_mova | wrong_reduction
    }
}

// One in the digit of the class's issue kind.
#[tactic(auto, using(crate::proofs::OfScreen::weighed))]
fn weight(code: u32) -> u32
    ensures { result ≡ 16 ^ (code / 4 % 8) }
{
    1 << (code / 4 % 8 * 4)
}

// The instructions of a group.
fn size_in(issued: u32) -> u32
    ensures { result ≡ size_in issued }
{
    issued % 16 + issued / 16 % 16 + issued / 256 % 16 + issued / 4096 % 16 + issued / 65536
}

// Whether any relative bit is set.
fn has_relative(group: &[u32]) -> bool
    ensures { result ≡ any_below (λ j. has_relative (low_at group.now j) (high_at group.now j)) (length group.now / 2) }
{
    group
        .chunks_exact(2)
        .any(|pair| instructions::has_relative(pair[0], pair[1]))
}

// Whether the first four are in the four vector units and alike.
fn is_straight(group: &[u32], taken: u32) -> bool
    ensures { result ≡ is_straight (high_at group.now) (length group.now / 2) taken }
{
    let [_, one, _, second, _, third, _, fourth, ..] = group else {
        return false;
    };
    let second = alu_units::is_alike(*one, *second);
    let third = alu_units::is_alike(*one, *third);
    let fourth = alu_units::is_alike(*one, *fourth);
    (taken % 16 == 15) & (second & (third & fourth))
}
