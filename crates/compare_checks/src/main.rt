// Reads records from standard input, each a constant and a recipe, and prints a line for each: the number of the check's refusal, or 0,
// the bad line and the value that it gives. A record that the input cuts off gets none.

#![tactic(auto)]

ghost use Rattle.std.specs.Prelude.{◌≡◌, ◌<◌, ◌^◌, ◌++◌};
ghost use Rattle.compare_checks.specs.Record.{constant_of, told_of};

use line::Told;
use records::{MOST_RECORDS, to_the_end};
use std::io::{self, Read, Write};

// The constant of the record that begins with these bytes.
fn constant(front: [u8; 5]) -> u64
    ensures { (result ≡ constant_of front) × (result < 2 ^ 32) }
{
    let [c3, c2, c1, c0, _] = front;
    u64::from(u32::from_be_bytes([c3, c2, c1, c0]))
}

// The answer to the record that begins with these bytes and goes on with this recipe.
#[tactic(auto, using(crate::proofs::Records::told_in_parts))]
fn answer(front: [u8; 5], recipe: &[u8]) -> Told
    ensures { result ≡ told_of (front ++ recipe.now) }
{
    line::told_of(&recipe::check(constant(front), recipe))
}

// Success tells three zeros, which go out by one call of the system in place of six. `compare_writes` prints the same with a blank behind:
// a function of both would need a crate of its own, which is no plainer.
fn print_line<W: Write>(out: &mut W, told: Told) -> io::Result<()> {
    let Told {
        number,
        line,
        value,
    } = told;
    if number == 0 {
        return out.write_all(b"0 0 0\n");
    }
    writeln!(out, "{number} {line} {value}")
}

fn answer_all<R: Read, W: Write>(input: &mut R, out: &mut W) -> io::Result<()> {
    let mut front = [0; 5];
    let mut room = [0; 255];
    for _ in 0..MOST_RECORDS {
        input.read_exact(&mut front)?;
        let recipe = &mut room[..usize::from(front[4])];
        input.read_exact(recipe)?;
        print_line(out, answer(front, recipe))?;
    }
    Ok(())
}

fn main(rt: HostRuntime) -> io::Result<()> {
    to_the_end(answer_all(&mut rt.stdin(), &mut rt.stdout()))
}
