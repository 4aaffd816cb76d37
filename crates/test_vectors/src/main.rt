// Judges stored cases from its input, one after the other, and writes each one's label, its report and for some the explanation.
//
// A case is a header and the input's bytes, a card and behind it a pack. The header is five digits, the number of bytes; an e where the
// explanation is asked for too, else a blank; 36 bytes of label; and a line feed. The first cases are document 01's examples by hand, with
// the answers that it gives; the others and what is to be written on them were made from the papers and not from this code.
#![tactic(auto)]

use console::{EXPLANATION, ExplanationOf, INPUT, ReportOn};
use std::io;
use std::io::{Read, Write};

const HEADER: usize = 43;

const ASKED: usize = 5;

const LABEL: usize = 6;

// Where cases come from, where their answers go, and room for both.
#[derive(Drop)]
struct Bench<'a, I, O, E> {
    input: &'a mut I,
    output: &'a mut O,
    errors: &'a mut E,
    bytes: &'a mut [u8],
    room: &'a mut [u8],
}

impl<I: Read, O: Write, E: Write> Bench<'_, I, O, E> {
    // Judges the case that comes next, and answers whether there was one.
    fn next_case(&mut self) -> io::Result<bool> {
        let mut header = [0u8; HEADER];
        if console::read_all(self.input, &mut header)? < HEADER {
            return Ok(false);
        }
        let Some(bytes) = self.bytes.get_mut(..length_in(&header)) else {
            return Ok(false);
        };
        self.output.write_all(&header[LABEL..])?;
        let n = console::read_all(self.input, bytes)?;
        let report = ReportOn(&bytes[..n]);
        console::write_answer(self.output, self.errors, &report, self.room);
        if header[ASKED] == b'e' {
            let explanation = ExplanationOf(&bytes[..n]);
            console::write_answer(self.output, self.errors, &explanation, self.room);
        }
        Ok(true)
    }
}

// The five digits of a header. A digit's value is its byte by 16: the byte of 0 is three times 16.
fn length_in(header: &[u8; HEADER]) -> usize {
    header[..ASKED].iter().fold(0, |n: usize, digit| {
        n.saturating_mul(10).saturating_add((*digit % 16) as usize)
    })
}

fn main(rt: HostRuntime) -> io::Result<()> {
    let mut bench = Bench {
        input: &mut rt.stdin(),
        output: &mut rt.stdout(),
        errors: &mut rt.stderr(),
        bytes: &mut console::room::<INPUT>(),
        room: &mut console::room::<EXPLANATION>(),
    };
    for _ in 0..10000u32 {
        if !bench.next_case()? {
            break;
        }
    }
    Ok(())
}
