// What the programs that read records share: reading into a room, the end of the input, and a checksum of what a call left in its rooms.

#![tactic(auto)]

ghost use Rattle.std.specs.Prelude.{◌≡◌, ◌≢◌, ℕ, ◌<◌, ◌≤◌, length, map, take, IfOk, OnErr, MatchResult, Ok, Err};
ghost use Rattle.std.specs.Io.KnownBytes.{Consumes, IsAtEnd};
ghost use Rattle.std.specs.IoError.{error_kind};
ghost use Rattle.std.specs.Int.{cast_unsigned, w32};
ghost use Rattle.records.specs.Sum.{checksum_of};

use std::io::{self, ErrorKind, Read};

// More records than any input has: the loops of `compare_checks` and `compare_plans` have to end.
pub const MOST_RECORDS: u64 = 1_000_000_000;

// Puts what the input has into the room, from the front on, until the room is full or the input ends; how many bytes that were. The loop
// counts by hand: std reads to the end of an input only into a Vec, which takes a heap, and `read_exact` doesn't tell how far it came.
#[tactic(auto, using(crate::proofs::Filling::front_grows))]
pub fn read_full<R: Read>(input: &mut R, room: &mut [u8]) -> io::Result<usize>
    ensures within { IfOk result (λ n. n ≤ length room.new) }
    ensures bytes { IfOk result (λ n. Consumes (R.remaining input.old) (R.remaining input.new) (take n room.new)) }
    ensures end { IfOk result (λ n. n < length room.new → IsAtEnd (R.remaining input.new)) }
    ensures none_lost { OnErr result ((n : ℕ) × (n ≤ length room.new)
        × Consumes (R.remaining input.old) (R.remaining input.new) (take n room.new)) }
{
    let mut at = 0;
    while at < room.len() {
        match input.read(&mut room[at..])? {
            0 => return Ok(at),
            n => at += n,
        }
    }
    Ok(at)
}

// What a program that reads record after record ends with: the end of the input is no error, also inside a record.
pub fn to_the_end(done: io::Result<()>) -> io::Result<()>
    ensures { MatchResult done (λ _. result ≡ done)
        (λ e. (error_kind e ≡ ErrorKind.UnexpectedEof → result ≡ Ok tt) × (error_kind e ≢ ErrorKind.UnexpectedEof → result ≡ done)) }
{
    match done {
        Err(e) if e.kind() == ErrorKind::UnexpectedEof => Ok(()),
        other => other,
    }
}

// An entry of a room, as a number without sign.
pub trait Entry: Copy {
    ghost unsigned_of: { Self → ℕ };

    fn unsigned(self) -> u32
        ensures { result ≡ unsigned_of self };
}

impl Entry for u8 {
    ghost unsigned_of = { λ b. b };

    fn unsigned(self) -> u32 {
        u32::from(self)
    }
}

impl Entry for i32 {
    ghost unsigned_of = { cast_unsigned w32 };

    fn unsigned(self) -> u32 {
        self.cast_unsigned()
    }
}

// The checksum h, with the entries of a room behind it.
pub fn checksum<T: Entry>(h: u32, room: &[T]) -> u32
    ensures { result ≡ checksum_of h (map T.unsigned_of room.now) }
{
    room.iter().fold(
        h,
        |sum, entry| sum.wrapping_mul(31).wrapping_add(entry.unsigned()),
    )
}
