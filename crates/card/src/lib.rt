// The card of document 01: what a pack may use, as seven lines of text, as a `Card`, and which line is at fault.
//
// The table of its lines stands once in each layer: as a definition in specs/Card.antt, in `read_card`, with the limits in limits.rt. A
// line more is a row more in each.
//
// The numbers of other texts NAME=number are read by the same function: `read_number`.
#![tactic(auto)]

ghost use Rattle.std.specs.Prelude.{◌≡◌, Some, find, eqb};
ghost use Rattle.std.specs.Cmp.Lexicographic.{pointwise};
ghost use Rattle.card.specs.Card.{card_of};
ghost use Rattle.card.specs.Code.{every_kind, every_build};
ghost use Rattle.card.specs.Text.{text};
ghost use Rattle.card.specs.Written.{kind_word, build_word};
ghost use Rattle.card.specs.Made.{test_of};

mod limits;
mod lines;
mod number;

pub use number::read_number;
use std::fmt;
use units::Quadwords;

// The paper's kind: ps, vs, gs.
#[derive(Clone, Copy, Debug, PartialEq, Eq)]
pub enum Kind {
    Pixel,
    Vertex,
    Geometry,
}

impl Kind {
    // Its word in the card's line.
    pub fn word(self) -> &'static str
        ensures { result.now ≡ text (kind_word self) }
    {
        match self {
            Kind::Pixel => "ps",
            Kind::Vertex => "vs",
            Kind::Geometry => "gs",
        }
    }

    fn of_word(word: &[u8]) -> Option<Kind>
        ensures { result ≡ find (λ kind. pointwise eqb word.now (text (kind_word kind))) every_kind }
    {
        [Kind::Pixel, Kind::Vertex, Kind::Geometry]
            .iter()
            .copied()
            .find(|kind| word == kind.word().as_bytes())
    }
}

impl fmt::Display for Kind {
    ghost output = { λ x. Some (text (kind_word x)) };

    fn fmt<W: fmt::Write>(&self, f: &mut fmt::Formatter<W>) -> fmt::Result {
        f.write_str(self.word())
    }
}

// The paper's build. Only a production pack is released.
#[derive(Clone, Copy, Debug, PartialEq, Eq)]
pub enum Build {
    Production,
    Debug,
}

impl Build {
    // Its word in the card's line.
    pub fn word(self) -> &'static str
        ensures { result.now ≡ text (build_word self) }
    {
        match self {
            Build::Production => "production",
            Build::Debug => "debug",
        }
    }

    fn of_word(word: &[u8]) -> Option<Build>
        ensures { result ≡ find (λ build. pointwise eqb word.now (text (build_word build))) every_build }
    {
        [Build::Production, Build::Debug]
            .iter()
            .copied()
            .find(|build| word == build.word().as_bytes())
    }
}

impl fmt::Display for Build {
    ghost output = { λ x. Some (text (build_word x)) };

    fn fmt<W: fmt::Write>(&self, f: &mut fmt::Formatter<W>) -> fmt::Result {
        f.write_str(self.word())
    }
}

// The paper's card, a field for each line. Any figures can be put into one: `check_card` tells whether they are in range.
#[derive(Clone, Copy, Debug, PartialEq, Eq)]
pub struct Card {
    pub kind: Kind,
    pub build: Build,
    // Registers granted, from 0 on.
    pub gprs: u32,
    // Clause temporaries granted, down from register 127.
    pub temps: u32,
    // Constants granted, from 0 on.
    pub consts: u32,
    // Frames that may stand on the stack.
    pub stack: u32,
    // The pack's length.
    pub quads: Quadwords,
}

// The number of the first line, counted from 1, that is missing, misspelt or out of range.
#[derive(Clone, Copy, Debug, PartialEq, Eq)]
pub struct BadLine(pub usize);

// How many lines a card has.
pub const LINES: usize = 7;

// Reads the card that `bytes` begin with, and answers how many bytes it takes, so that the pack starts there. Any bytes are answered;
// what stands behind line 7 is not looked at.
pub fn read_card(bytes: &[u8]) -> Result<(Card, usize), BadLine>
    ensures { result ≡ card_of bytes.now }
{
    let (word, rest) = lines::value(bytes, 1, b"kind=")?;
    let kind = Kind::of_word(word).ok_or(BadLine(1))?;
    let (word, rest) = lines::value(rest, 2, b"build=")?;
    let build = Build::of_word(word).ok_or(BadLine(2))?;
    let (gprs, rest) = lines::number(rest, 3, b"gprs=", limits::GPRS)?;
    let (temps, rest) = lines::number(rest, 4, b"temps=", limits::TEMPS)?;
    if !limits::fit_together(gprs, temps) {
        return Err(BadLine(4));
    }
    let (consts, rest) = lines::number(rest, 5, b"consts=", limits::CONSTS)?;
    let (stack, rest) = lines::number(rest, 6, b"stack=", limits::STACK)?;
    let (quads, rest) = lines::number(rest, 7, b"quads=", limits::QUADS)?;
    let card = Card {
        kind,
        build,
        gprs,
        temps,
        consts,
        stack,
        quads: Quadwords(quads as usize),
    };
    Ok((card, bytes.len() - rest.len()))
}

// Tests a card that a caller made against the limits that a card in bytes is held to.
#[tactic(auto, unfolding(crate::specs::Made::test_of))]
pub fn check_card(card: Card) -> Result<(), BadLine>
    ensures { result ≡ test_of card }
{
    if !limits::GPRS.allow(card.gprs as usize) {
        return Err(BadLine(3));
    }
    if !limits::TEMPS.allow(card.temps as usize) {
        return Err(BadLine(4));
    }
    if !limits::fit_together(card.gprs, card.temps) {
        return Err(BadLine(4));
    }
    if !limits::CONSTS.allow(card.consts as usize) {
        return Err(BadLine(5));
    }
    if !limits::STACK.allow(card.stack as usize) {
        return Err(BadLine(6));
    }
    if !limits::QUADS.allow(card.quads.0) {
        return Err(BadLine(7));
    }
    Ok(())
}
