// Reads calls of planning from standard input, each a record of eight bytes: c (4 bytes, most significant first), the lengths of the work
// room (2) and of the recipe room (1), and whether the work room is to be shown (1). Writes six bytes for each: the refusal's number or 0,
// the lines, and a checksum of both rooms at exit (4), every byte of which was 7; then the work room, if it is to be shown.

#![tactic(auto)]

use line::Refusal;
use records::{MOST_RECORDS, checksum, to_the_end};
use std::io::{self, Read, Write};

// A room that comes with this in each byte shows which bytes were touched.
const UNTOUCHED: u8 = 7;

// The constant, the lengths of both rooms, and whether the work room is shown.
#[derive(Clone, Copy)]
struct Record {
    c: u32,
    work: u16,
    recipe: u8,
    shown: bool,
}

impl From<[u8; 8]> for Record {
    fn from(bytes: [u8; 8]) -> Record {
        let [c3, c2, c1, c0, w1, w0, recipe, shown] = bytes;
        Record {
            c: u32::from_be_bytes([c3, c2, c1, c0]),
            work: u16::from_be_bytes([w1, w0]),
            recipe,
            shown: shown == 1,
        }
    }
}

// Six bytes: the answer and the checksum.
fn told(answer: Result<usize, Refusal>, sum: u32) -> [u8; 6] {
    let [s3, s2, s1, s0] = sum.to_be_bytes();
    // To a narrower type there is no From.
    let number = (line::number_of(&answer) % 256) as u8;
    let lines = (plan::lines_of(answer) % 256) as u8;
    [number, lines, s3, s2, s1, s0]
}

// One call, in the rooms that are lent.
fn answer(c: u32, work: &mut [u8], recipe: &mut [u8]) -> [u8; 6] {
    work.fill(UNTOUCHED);
    recipe.fill(UNTOUCHED);
    let planned = plan::plan(u64::from(c), work, recipe);
    told(planned, checksum(checksum(0, work), recipe))
}

fn answer_all<R: Read, W: Write>(input: &mut R, out: &mut W) -> io::Result<()> {
    let mut bytes = [0; 8];
    let mut work = [0; 65535];
    let mut recipe = [0; 255];
    for _ in 0..MOST_RECORDS {
        input.read_exact(&mut bytes)?;
        let record = Record::from(bytes);
        let work = &mut work[..usize::from(record.work)];
        let recipe = &mut recipe[..usize::from(record.recipe)];
        out.write_all(&answer(record.c, work, recipe))?;
        if record.shown {
            out.write_all(work)?;
        }
    }
    Ok(())
}

fn main(rt: HostRuntime) -> io::Result<()> {
    to_the_end(answer_all(&mut rt.stdin(), &mut rt.stdout()))
}
