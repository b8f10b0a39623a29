// The text of a request and of a DIMACS file.

#![tactic(auto)]

mod print;
mod put;
mod read;
mod text;

ghost use Rattle.wording.specs.Print.{Files};

use put::Out;

// Every file fits into a room of this length.
pub const ROOM: usize = 262_144;

// Puts what the program prints for its whole input into the front of a room.
#[tactic(auto, using(wording::proofs::Filed::too_short, wording::proofs::Filed::long_enough))]
pub fn file(input: &[u8], out: &mut [u8]) -> Option<usize>
    ensures { Files input.now out.old result out.new }
{
    if out.len() < ROOM {
        return None;
    }
    let mut out = Out { room: out, at: 0 };
    print::put_answer(&mut out, input);
    Some(out.at)
}
