// Writes recipes: reads records from standard input until it ends, and prints for each what `write::write` or `write::write_plain`
// answered. A record is the call (1 byte: 0 document 01's, else that over given literals), c (4 bytes, most significant first), w and the
// number of literals (1 byte each), the first free number (4), the lengths of the recipe and of the bit room (1 each) and of the clause
// room (2); then the literals (4 bytes each, two's complement) and the recipe. A line is the refusal's number, the bad line and the value
// that it gives, words, clauses, next free number, bits of y, and a sum over both rooms.

#![tactic(auto)]

use line::{Refusal, Told};
use product::Counts;
use records::{checksum, read_full, to_the_end};
use std::io::{self, Read, Write};

// A room that comes with this in each entry shows which entries were touched.
const UNTOUCHED: i32 = 7;

// Document 01's call, or that over given literals, with its first free number.
#[derive(Clone, Copy)]
enum Call {
    Plain,
    Given { first: u32 },
}

// The fifteen bytes that a record begins with: the numbers of the call, and the lengths of its rooms.
#[derive(Clone, Copy)]
struct Head {
    call: Call,
    c: u32,
    w: u8,
    literals: u8,
    recipe: u8,
    bits: u8,
    clauses: u16,
}

impl Head {
    fn written(
        self,
        x: &[i32],
        recipe: &[u8],
        bits: &mut [i32],
        clauses: &mut [i32],
    ) -> Result<Counts, Refusal> {
        let (c, w) = (u64::from(self.c), u32::from(self.w));
        match self.call {
            Call::Plain => write::write_plain(c, w, recipe, bits, clauses),
            Call::Given { first } => write::write(c, w, x, first, recipe, bits, clauses),
        }
    }
}

impl From<[u8; 15]> for Head {
    fn from(bytes: [u8; 15]) -> Head {
        let [
            call,
            c3,
            c2,
            c1,
            c0,
            w,
            literals,
            f3,
            f2,
            f1,
            f0,
            recipe,
            bits,
            k1,
            k0,
        ] = bytes;
        Head {
            call: match call {
                0 => Call::Plain,
                _ => Call::Given {
                    first: u32::from_be_bytes([f3, f2, f1, f0]),
                },
            },
            c: u32::from_be_bytes([c3, c2, c1, c0]),
            w,
            literals,
            recipe,
            bits,
            clauses: u16::from_be_bytes([k1, k0]),
        }
    }
}

// What a record is lent: room for its literals and their bytes, and for its recipe, and the rooms of its call.
struct Rooms<'a> {
    bytes: &'a mut [u8],
    x: &'a mut [i32],
    recipe: &'a mut [u8],
    bits: &'a mut [i32],
    clauses: &'a mut [i32],
}

impl Rooms<'_> {
    // Reads the literals and the recipe, and answers. Where the input ends before, the rooms keep what they held.
    fn answer<R: Read, W: Write>(self, input: &mut R, out: &mut W, head: Head) -> io::Result<()> {
        let Rooms {
            bytes,
            x,
            recipe,
            bits,
            clauses,
        } = self;
        read_full(input, bytes)?;
        read_literals(bytes, x);
        read_full(input, recipe)?;
        bits.fill(UNTOUCHED);
        clauses.fill(UNTOUCHED);
        let done = head.written(x, recipe, bits, clauses);
        show(out, done, checksum(checksum(0, bits), clauses))
    }
}

// The literals that stand in the bytes, four for each. `compare_passes` adds 2^31: a function of both, told what to add, would be as long.
fn read_literals(bytes: &[u8], x: &mut [i32]) {
    for (literal, word) in x.iter_mut().zip(bytes.as_chunks().0) {
        *literal = i32::from_be_bytes(*word);
    }
}

// Success tells three zeros, which go out at once: most calls succeed. (As in `compare_checks`, which ends the line here.)
fn print_told<W: Write>(out: &mut W, told: Told) -> io::Result<()> {
    let Told {
        number,
        line,
        value,
    } = told;
    if number == 0 {
        return out.write_all(b"0 0 0 ");
    }
    write!(out, "{number} {line} {value} ")
}

fn show<W: Write>(out: &mut W, done: Result<Counts, Refusal>, sum: u32) -> io::Result<()> {
    print_told(out, line::told_of(&done))?;
    let n = product::counts_of(done);
    writeln!(out, "{} {} {} {} {sum}", n.words, n.clauses, n.next, n.bits)
}

// As many records as a 64-bit number counts.
fn answer_all<R: Read, W: Write>(input: &mut R, out: &mut W) -> io::Result<()> {
    let mut front = [0; 15];
    let mut bytes = [0; 1020];
    let mut x = [0; 255];
    let mut recipe = [0; 255];
    let mut bits = [0; 255];
    let mut clauses = [0; 65535];
    for _ in 0..u64::MAX {
        input.read_exact(&mut front)?;
        let head = Head::from(front);
        let rooms = Rooms {
            bytes: &mut bytes[..4 * usize::from(head.literals)],
            x: &mut x[..usize::from(head.literals)],
            recipe: &mut recipe[..usize::from(head.recipe)],
            bits: &mut bits[..usize::from(head.bits)],
            clauses: &mut clauses[..usize::from(head.clauses)],
        };
        rooms.answer(input, out, head)?;
    }
    Ok(())
}

fn main(rt: HostRuntime) -> io::Result<()> {
    to_the_end(answer_all(&mut rt.stdin(), &mut rt.stdout()))
}
