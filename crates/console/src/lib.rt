// What the programs share: room for what they read, standard input, files by the arguments that name them, and the
// report or the explanation on standard output.
#![tactic(auto)]

mod answers;
mod files;
mod rooms;

pub use answers::{
    Answer, ExplanationOf, ExplanationOfFiles, ReportOn, ReportOnFiles, write_answer,
};
pub use files::{Tool, is_given, read_all, read_argument, read_input};
pub use rooms::{CARD, EXPLANATION, INPUT, PACK, REPORT, room};
