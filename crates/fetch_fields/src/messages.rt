// What is wrong, a line on standard error. Each part of a line is written by itself, so that where one can't be written the others still are.
use crate::arguments;
use bits::read;
use fetch_codec::Clause;
use fetch_text::Fault;
use formats::fields;
use microcode::DecodeError;
use opcodes::cf::FetchKind;
use std::fmt;
use std::fmt::InlineText;
use std::io::Write;
use std::rt::Env;
use units::Words;

// What a setting's line ends with, as one part.
#[derive(Clone, Copy)]
struct LineEnd(Fault);

impl fmt::Display for LineEnd {
    fn fmt<W: fmt::Write>(&self, f: &mut fmt::Formatter<W>) -> fmt::Result {
        write!(f, ": {}\n", self.0)
    }
}

// Where messages go, and the arguments that they name. What can't be written is lost.
#[derive(Drop)]
pub(crate) struct Teller<'a, R, E> {
    pub rt: &'a R,
    pub errors: &'a mut E,
}

impl<R: Env, E: Write> Teller<'_, R, E> {
    // Argument i between two texts.
    pub(crate) fn tell(&mut self, before: &str, i: usize, behind: &str) {
        self.say("fetch: ");
        self.say(before);
        self.say_argument(i);
        self.say(behind);
        self.say("\n");
    }

    pub(crate) fn tell_long(&mut self) {
        self.tell("more than 8192 quadwords: ", 3, "");
    }

    pub(crate) fn tell_partial(&mut self) {
        self.tell("not whole quadwords: ", 3, "");
    }

    // Why there is no fetch. Of rule 8 by its part: the number is not one of the kind's, or the fourth word is not 0.
    pub(crate) fn tell_no_fetch(
        &mut self,
        why: DecodeError,
        clause: Clause,
        pack: &[u8],
        start: Words,
    ) {
        if why == DecodeError::Outside {
            self.tell("quadword ", 2, ": not in the pack");
            return;
        }
        let number = read(input::word_of(pack, start), fields::FETCH_INST);
        if opcodes::fetch_taken(FetchKind::from(clause), number) {
            self.tell("quadword ", 2, ": its fourth word is not 0");
            return;
        }
        self.say("fetch: quadword ");
        self.say_argument(2);
        self.say(": ");
        self.say_argument(1);
        self.say(" does not take number ");
        let _ = write!(self.errors, "{number}");
        self.say("\n");
    }

    // The setting that starts behind `at` bytes.
    pub(crate) fn tell_setting(&mut self, settings: &[u8], at: usize, fault: Fault) {
        let (line, _) = fetch_text::split_line(settings.get(at..).unwrap_or(&[]));
        self.say("fetch: ");
        let _ = self.errors.write_all(line);
        self.say(InlineText::<64>::of(LineEnd(fault)).as_str());
    }

    fn say(&mut self, text: &str) {
        let _ = self.errors.write_all(text.as_bytes());
    }

    fn say_argument(&mut self, i: usize) {
        let mut room = [0u8; 4096];
        let _ = self
            .errors
            .write_all(arguments::argument(self.rt, i, &mut room));
    }
}
