// Rules 4 to 17, with 22 behind 6, at one pair: a function for each stretch of rules, the later one asked where the earlier accepts.
ghost use Rattle.std.specs.Prelude.{◌≡◌, ◌≤◌};
ghost use Rattle.units.specs.Units.{low_at, high_at};
ghost use Rattle.checks.specs.declared.Place.TheVariants as places;
ghost use Rattle.checks.specs.Verdict.{refusal};
ghost use Rattle.checks.specs.Checks.{first_broken};
ghost use Rattle.section.specs.Control.{control_at};
ghost use Rattle.section.specs.Rules.{clause_at};
ghost use Rattle.walk.specs.Flow.{flow_at};
ghost use Rattle.judge.specs.Judge as order;
ghost use Rattle.judge.specs.Code.{layout_verdict, LayoutTold, Standing, StackFound, Found};

use crate::passes::Section;
use apart::Seen;
use card::Card;
use checks::{Place, Refusal, Verdict};
use grants::Limits;
use opcodes::cf::Control;
use section::Clause;
use units::Quadwords;
use walk::{Flow, Frames, Row};

// A control-flow pair, read once: where it stands, its words, what it is and the clause that it opens.
#[derive(Clone, Copy)]
pub(crate) struct Pair<'s, 'w> {
    section: &'s Section<'w>,
    place: Quadwords,
    low: u32,
    high: u32,
    control: Control,
    pub(crate) clause: Option<Clause>,
    ghost in_section: { place.0 ≤ section.now.end.0 },
    ghost low_value: { low ≡ low_at section.now.words.now place.0 },
    ghost high_value: { high ≡ high_at section.now.words.now place.0 },
    ghost control_value: { control ≡ control_at section.now.words.now place.0 },
    ghost clause_value: { clause ≡ clause_at section.now.words.now place.0 },
}

impl<'s, 'w> Pair<'s, 'w> {
    // The pair that stands there.
    pub(crate) fn read(section: &'s Section<'w>, place: Quadwords) -> Pair<'s, 'w>
        requires { place.0 ≤ section.now.end.0 }
        ensures of_section { result.section.now ≡ section.now }
        ensures at_place { result.place ≡ place }
    {
        let at = units::low_word(place).0;
        let low = section.words[at];
        let high = section.words[at + 1];
        let control = section::control_of(high);
        let clause = section::clause_of(control, low, high);
        Pair {
            section,
            place,
            low,
            high,
            control,
            clause,
        }
    }

    // Rules 4 to 17 and 22 where the stack before the pair is `s`; `seen` is what is known of the clauses up to there. Answers the stack behind it.
    pub(crate) fn pass(&self, seen: Seen, s: Frames, rows: &[Row]) -> Result<Frames, Refusal>
        requires standing { Standing self.now.section.now.card self.now.section.now.words.now self.now.section.now.end.0 self.now.place.0 s rows.now }
        requires layout_told { LayoutTold self.now.section.now.card self.now.section.now.words.now self.now.section.now.end.0 self.now.place.0 seen }
        ensures { Found self.now.section.now.card self.now.section.now.words.now self.now.section.now.end.0 self.now.place.0 result }
    {
        self.verdict(seen)?;
        self.stack_behind(s, rows)
    }

    // Rules 4 to 15 and 22.
    fn verdict(&self, seen: Seen) -> Verdict
        requires { LayoutTold self.now.section.now.card self.now.section.now.words.now self.now.section.now.end.0 self.now.place.0 seen }
        ensures { result ≡ first_broken (order.pair_checks self.now.section.now.card self.now.section.now.words.now self.now.section.now.end.0 self.now.place.0) }
    {
        self.range_verdict()?;
        self.layout_verdict(seen)?;
        self.inside_verdict()
    }

    // Rules 4, 5 and 6.
    #[tactic(auto, unfolding(crate::specs::Judge::range_checks, checks::specs::Checks::first_broken))]
    fn range_verdict(&self) -> Verdict
        ensures { result ≡ first_broken (order.range_checks self.now.section.now.card self.now.section.now.words.now self.now.section.now.end.0 self.now.place.0) }
    {
        if section::is_not_taken(self.control) {
            return Err(self.refused(4));
        }
        if section::is_bad_field(self.control, self.high) {
            return Err(self.refused(5));
        }
        if section::is_bad_range(self.section.end, self.section.card.quads, self.clause) {
            return Err(self.refused(6));
        }
        Ok(())
    }

    // Rule 22.
    fn layout_verdict(&self, seen: Seen) -> Verdict
        ensures { result ≡ layout_verdict (clause_at self.now.section.now.words.now self.now.place.0) seen self.now.place }
    {
        if apart::is_odd_fetch(self.clause) || apart::names(seen, self.place) {
            return Err(self.refused(22));
        }
        Ok(())
    }

    // Rule 7, then the clause.
    #[tactic(auto, unfolding(crate::specs::Judge::inside_checks, checks::specs::Checks::first_broken))]
    fn inside_verdict(&self) -> Verdict
        ensures { result ≡ first_broken (order.inside_checks self.now.section.now.card self.now.section.now.words.now self.now.place.0) }
    {
        let card = self.section.card;
        if section::is_bad_export(self.control, card.kind, card.gprs, self.low, self.high) {
            return Err(self.refused(7));
        }
        self.clause_verdict()
    }

    // Rules 8 to 15.
    #[tactic(auto, unfolding(crate::specs::Judge::clause_checks, checks::specs::Checks::first_broken))]
    fn clause_verdict(&self) -> Verdict
        ensures { result ≡ first_broken (order.clause_checks self.now.section.now.card self.now.section.now.words.now self.now.place self.now.clause) }
    {
        let Section { card, words, .. } = *self.section;
        match self.clause {
            None => Ok(()),
            Some(
                Clause::Alu {
                    start,
                    slots,
                    push_before,
                    mode0,
                    mode1,
                },
            ) => {
                let limits = limits_with(card, mode0, mode1);
                clauses::alu_clause(
                    words,
                    self.place,
                    start,
                    slots,
                    push_before,
                    card.kind,
                    limits,
                )
            }
            Some(
                Clause::Fetch {
                    start,
                    fetches,
                    kind,
                },
            ) => {
                let limits = limits_with(card, 0, 0);
                fetches::fetch_clause(words, self.place, start, fetches, kind, limits)
            }
        }
    }

    // Rules 16 and 17, and what the pair does to the stack.
    fn stack_behind(&self, s: Frames, rows: &[Row]) -> Result<Frames, Refusal>
        requires { Standing self.now.section.now.card self.now.section.now.words.now self.now.section.now.end.0 self.now.place.0 s rows.now }
        ensures { StackFound self.now.section.now.card.stack self.now.section.now.end.0 (flow_at self.now.section.now.words.now) self.now.place.0 result }
    {
        let behind = units::quadword_behind(self.place);
        let limit = self.section.card.stack as usize;
        let Ok(after) = walk::follow(self.flow(), behind, limit, s, rows) else {
            return Err(self.refused(16));
        };
        if self.place == self.section.end && s.depth != 0 {
            return Err(self.refused(17));
        }
        Ok(after)
    }

    #[tactic(auto, unfolding(walk::specs::Flow::flow_at))]
    fn flow(&self) -> Flow
        ensures { result ≡ flow_at self.now.section.now.words.now self.now.place.0 }
    {
        walk::flow_of(self.control, self.low, self.high)
    }

    // A refusal that points at the pair.
    fn refused(&self, rule: u8) -> Refusal
        ensures { result ≡ refusal rule (places.Quadword self.now.place) 0 }
    {
        Refusal::of_place(rule, Place::Quadword(self.place))
    }
}

// What is granted in a clause of those modes; in a fetch clause they make no difference.
pub fn limits_with(card: Card, mode0: u32, mode1: u32) -> Limits
    ensures { result ≡ order.limits_with card mode0 mode1 }
{
    Limits {
        gprs: card.gprs,
        temps: card.temps,
        consts: card.consts,
        mode0,
        mode1,
    }
}
