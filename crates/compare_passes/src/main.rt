// One pass over words as a program: reads records from standard input until it ends, or ends inside one, and prints for each what
// `propagate::propagate` answered. A record is how many times more the pass is made (1 byte), each on the room as it came, so that it can
// be timed; the number of words (2 bytes, most significant first), of given literals (1 byte) and of bytes of the value room (2); the
// allowance (8); then the words and the literals (4 bytes each, with 2^31 added), and the room. A line is the refusal's number, the clauses
// read and a sum over the room.

#![tactic(auto)]

use line::Refusal;
use records::{checksum, to_the_end};
use std::io::{self, Read, Write};

// The fourteen bytes that a record begins with.
#[derive(Clone, Copy)]
struct Head {
    more: u8,
    words: u16,
    given: u8,
    room: u16,
    allowance: u64,
}

impl From<[u8; 14]> for Head {
    fn from(bytes: [u8; 14]) -> Head {
        let [more, w1, w0, given, r1, r0, a7, a6, a5, a4, a3, a2, a1, a0] = bytes;
        Head {
            more,
            words: u16::from_be_bytes([w1, w0]),
            given,
            room: u16::from_be_bytes([r1, r0]),
            allowance: u64::from_be_bytes([a7, a6, a5, a4, a3, a2, a1, a0]),
        }
    }
}

// Reads words through a room for their bytes, four for each; 2^31 was added to each word.
fn read_words<R: Read>(input: &mut R, bytes: &mut [u8], words: &mut [i32]) -> io::Result<()> {
    input.read_exact(bytes)?;
    for (word, four) in words.iter_mut().zip(bytes.as_chunks().0) {
        *word = i32::from_be_bytes(*four).wrapping_add(i32::MIN);
    }
    Ok(())
}

// A pass, and the value room as it came.
#[derive(Clone, Copy)]
struct Pass<'a> {
    words: &'a [i32],
    given: &'a [i32],
    allowance: u64,
    came: &'a [u8],
}

impl Pass<'_> {
    // The pass on the room as it came.
    fn once(self, values: &mut [u8]) -> Result<u64, Refusal> {
        // By `copy_from_slice` the timed passes took 1.4 times as long.
        for (value, came) in values.iter_mut().zip(self.came) {
            *value = *came;
        }
        propagate::propagate(self.words, self.given, self.allowance, values)
    }

    // So many passes more, and the answer of one.
    fn answer<W: Write>(self, out: &mut W, more: u8, values: &mut [u8]) -> io::Result<()> {
        for _ in 0..more {
            let _ = self.once(values);
        }
        let done = self.once(values);
        writeln!(
            out,
            "{} {} {}",
            line::number_of(&done),
            propagate::clauses_of(done),
            checksum(0, values)
        )
    }
}

// As many records as a 64-bit number counts.
fn answer_all<R: Read, W: Write>(input: &mut R, out: &mut W) -> io::Result<()> {
    let mut front = [0; 14];
    let mut bytes = [0; 262140];
    let mut words = [0; 65535];
    let mut given = [0; 255];
    let mut came = [0; 65535];
    let mut values = [0; 65535];
    for _ in 0..u64::MAX {
        input.read_exact(&mut front)?;
        let head = Head::from(front);
        let words = &mut words[..usize::from(head.words)];
        read_words(input, &mut bytes[..4 * usize::from(head.words)], words)?;
        let given = &mut given[..usize::from(head.given)];
        read_words(input, &mut bytes[..4 * usize::from(head.given)], given)?;
        let came = &mut came[..usize::from(head.room)];
        input.read_exact(came)?;
        let pass = Pass {
            words,
            given,
            allowance: head.allowance,
            came,
        };
        pass.answer(out, head.more, &mut values[..usize::from(head.room)])?;
    }
    Ok(())
}

fn main(rt: HostRuntime) -> io::Result<()> {
    to_the_end(answer_all(&mut rt.stdin(), &mut rt.stdout()))
}
