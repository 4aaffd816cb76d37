// What the arguments say.
ghost use Rattle.std.specs.Prelude.{◌≤◌, length, IfSome};

use fetch_codec::Clause;
use std::rt::Env;

// Argument 1, in AMD's spelling.
pub(crate) fn asked_clause(rt: &impl Env) -> Option<Clause> {
    let mut room = [0u8; 4096];
    match argument(rt, 1, &mut room) {
        b"TEX" => Some(Clause::Tex),
        b"VTX" => Some(Clause::Vtx),
        b"VTX_TC" => Some(Clause::VtxTc),
        _ => None,
    }
}

// Argument 2.
pub(crate) fn quadword(rt: &impl Env) -> Option<u32> {
    let mut room = [0u8; 4096];
    card::read_number(argument(rt, 2, &mut room))
}

// Argument i, put at the start of a room: no bytes where it is missing or does not fit.
pub(crate) fn argument<'a>(rt: &impl Env, i: usize, room: &'a mut [u8]) -> &'a [u8]
    ensures { length result.now ≤ length room.old }
{
    match rt.arg(i, room) {
        Ok(n) => &room[..n],
        Err(_) => &[],
    }
}

// Puts the arguments from the fourth on at the start of a room, a line each; nothing where they do not fit.
pub(crate) fn gather<'a>(rt: &impl Env, room: &'a mut [u8]) -> Option<&'a [u8]> {
    let mut end = 0;
    for i in 4..usize::MAX {
        if !console::is_given(rt, i) {
            break;
        }
        end += put_line(rt, i, room.get_mut(end..)?)?;
    }
    room.get(..end)
}

// Puts one there, and answers how many bytes it then has. One that ends with a line feed, as lines of a file do, gets no other, but has room for it.
fn put_line(rt: &impl Env, i: usize, room: &mut [u8]) -> Option<usize>
    ensures { IfSome result (λ n. n ≤ length room.new) }
{
    let n = rt.arg(i, room).ok()?;
    let (line, behind) = room.split_at_mut(n);
    let feed = behind.first_mut()?;
    if line.ends_with(b"\n") {
        return Some(n);
    }
    *feed = b'\n';
    Some(n + 1)
}
