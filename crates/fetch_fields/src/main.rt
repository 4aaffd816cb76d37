// fetch_fields KIND QUADWORD PACK: writes the fields of the fetch that starts at that quadword of the pack's file to standard output, a line
// NAME=number each. fetch_fields KIND QUADWORD PACK NAME=number..: writes the pack with those fields changed. Where something is wrong it says
// so on standard error and writes nothing else.
#![tactic(auto)]

mod arguments;
mod messages;

use console::{PACK, Tool};
use fetch_codec::Clause;
use fetch_pack::PackError;
use fetch_text::{EditError, ShowError};
use messages::Teller;
use std::io::Write;
use std::rt::Env;
use units::{Quadwords, Words};

fn main(rt: HostRuntime) {
    let mut errors = rt.stderr();
    if !console::is_given(&rt, 3) {
        let _ = errors.write_all(
            b"usage: fetch_fields TEX|VTX|VTX_TC QUADWORD PACK [NAME=number..]\n",
        );
        return;
    }
    let mut room = console::room::<PACK>();
    let mut teller = Teller {
        rt: &rt,
        errors: &mut errors,
    };
    let Some(clause) = arguments::asked_clause(&rt) else {
        teller.tell("no kind of fetch: ", 1, "");
        return;
    };
    let Some(quadword) = arguments::quadword(&rt) else {
        teller.tell("no number of a quadword: ", 2, "");
        return;
    };
    let Some(n) = console::read_argument(&rt, teller.errors, Tool::Fetch, 3, &mut room) else {
        return;
    };
    let pack = &mut room[..n];
    let start = units::low_word(Quadwords(quadword as usize));
    if console::is_given(&rt, 4) {
        edit(&mut teller, clause, pack, start);
    } else {
        show(&mut teller, clause, pack, start);
    }
}

fn show<R: Env + Print, E: Write>(
    teller: &mut Teller<R, E>,
    clause: Clause,
    pack: &[u8],
    start: Words,
) {
    let mut text = fetch_text::text_room();
    match fetch_pack::show_fetch(clause, pack, start, &mut text) {
        Ok(n) => write(teller, text.get(..n).unwrap_or(&[]), "the fields were"),
        Err(PackError::TooLong) => teller.tell_long(),
        Err(PackError::NotWhole) => teller.tell_partial(),
        Err(PackError::Fetch(ShowError::NoFetch(why))) => {
            teller.tell_no_fetch(why, clause, pack, start);
        }
        // There is room for every text, by what `text_room` promises.
        Err(PackError::Fetch(ShowError::TooSmall)) => {}
    }
}

fn edit<R: Env + Print, E: Write>(
    teller: &mut Teller<R, E>,
    clause: Clause,
    pack: &mut [u8],
    start: Words,
) {
    // Room for more settings than a fetch has fields, several times over.
    let mut room = [0u8; 16384];
    let Some(settings) = arguments::gather(teller.rt, &mut room) else {
        let _ = teller
            .errors
            .write_all(b"fetch: the settings are too long\n");
        return;
    };
    match fetch_pack::edit_fetch(clause, pack, start, settings) {
        Ok(()) => write(teller, pack, "the pack was"),
        Err(PackError::TooLong) => teller.tell_long(),
        Err(PackError::NotWhole) => teller.tell_partial(),
        Err(PackError::Fetch(EditError::NoFetch(why))) => {
            teller.tell_no_fetch(why, clause, pack, start);
        }
        Err(PackError::Fetch(EditError::Wrong { at, fault })) => {
            teller.tell_setting(settings, at, fault);
        }
    }
}

// Writes the fields or the pack to standard output.
fn write<R: Env + Print, E: Write>(teller: &mut Teller<R, E>, bytes: &[u8], what: &str) {
    if teller.rt.write_all(bytes).is_err() {
        let _ = writeln!(teller.errors, "fetch: {what} not written");
    }
}
