// Reads cards from its input, one case after the other, and writes what `card` answers to each, a line for each.
//
// A case is a header, the card's bytes and a line feed. The header is five digits, the number of bytes; a blank; 36 bytes of
// label; and a line feed. The cases, with the answers that `stdout` expects, were made from document 01's table and not from this
// code.
#![tactic(auto)]

ghost use Rattle.std.specs.Prelude.{◌≤◌, ◌<◌, IfOk, length};

use card::{BadLine, Card};
use std::io;
use std::io::Read;

const LABEL: usize = 36;

const HEADER: usize = 43;

fn put_figure(out: &impl Print, n: u64) -> io::Result<()> {
    print!(out; " {n}")
}

fn put_card(out: &impl Print, card: Card) -> io::Result<()> {
    print!(out; " {} {}", card.kind, card.build)?;
    put_figure(out, card.gprs as u64)?;
    put_figure(out, card.temps as u64)?;
    put_figure(out, card.consts as u64)?;
    put_figure(out, card.stack as u64)?;
    put_figure(out, card.quads.0 as u64)
}

// What a card that was read is as a card that a caller makes.
fn put_test(out: &impl Print, card: Card) -> io::Result<()> {
    match card::check_card(card) {
        Ok(()) => out.print(", in range"),
        Err(BadLine(n)) => {
            out.print(", out of range: line")?;
            put_figure(out, n as u64)
        }
    }
}

fn put_answer(out: &impl Print, input: &[u8]) -> io::Result<()> {
    match card::read_card(input) {
        Ok((card, taken)) => {
            out.print("whole, bytes")?;
            put_figure(out, taken as u64)?;
            out.print(":")?;
            put_card(out, card)?;
            put_test(out, card)?;
        }
        Err(BadLine(n)) => {
            out.print("line")?;
            put_figure(out, n as u64)?;
        }
    }
    out.print("\n")
}

// A digit's value; the byte of 0 is three times 16.
fn digit(header: &[u8], i: usize) -> usize
    ensures { result < 16 }
{
    if header.len() <= i {
        return 0;
    }
    (header[i] % 16) as usize
}

// The five digits of a header.
fn length_in(header: &[u8]) -> usize
    ensures { result < 200000 }
{
    let high = digit(header, 0) * 10000 + digit(header, 1) * 1000;
    high + digit(header, 2) * 100 + digit(header, 3) * 10 + digit(header, 4)
}

// Runs the case that `cases` begin with, and answers what stands behind it.
fn run_case<'a>(out: &impl Print, cases: &'a [u8]) -> io::Result<&'a [u8]>
    requires { 0 < length cases.now }
    ensures { IfOk result (λ rest. length rest.now < length cases.now) }
{
    if cases.len() < HEADER {
        return Ok(&[]);
    }
    let (header, rest) = cases.split_at(HEADER);
    let n = length_in(header);
    if rest.len() <= n {
        return Ok(&[]);
    }
    let (input, rest) = rest.split_at(n);
    out.write_all(&header[6..6 + LABEL])?;
    put_answer(out, input)?;
    Ok(&rest[1..])
}

fn run(out: &impl Print, cases: &[u8]) -> io::Result<()> {
    let mut rest = cases;
    while !rest.is_empty() {
        rest = run_case(out, rest)?;
    }
    Ok(())
}

// Reads until the input ends or the room is full, and answers how many bytes stand in the room. A turn reads as many as the input gives, so the
// count is the input's to move, and no iterator's. (As `console::read_all`, above which crate no test of `card` should stand.)
fn read_full(input: &mut impl Read, room: &mut [u8]) -> io::Result<usize>
    ensures { IfOk result (λ n. n ≤ length room.new) }
{
    let mut done = 0;
    while done < room.len() {
        let more = input.read(&mut room[done..])?;
        if more == 0 {
            return Ok(done);
        }
        done += more;
    }
    Ok(done)
}

fn main(rt: HostRuntime) -> io::Result<()> {
    let mut room = [0u8; 65536];
    let n = read_full(&mut rt.stdin(), &mut room)?;
    run(&rt.stdout(), &room[..n])
}
