// Bytes and numbers put into a lent room, one behind the other.
ghost use Rattle.std.specs.Prelude.{[], ◌∷◌, ◌≡◌, length};
ghost use Rattle.std.specs.Fmt.{decimal, signed_decimal};
ghost use Rattle.dimacs.specs.Puts.{Has, Puts};

use cnf::named;
use itoa::write_digits;

// How many digits n has. Most words of a file have one or two, and for these a test serves here and in `write_digits`.
fn digits(n: u64) -> usize
    ensures { result ≡ length (decimal n) }
{
    match n {
        0..=9 => 1,
        10..=99 => 2,
        _ => n.ilog10() as usize + 1,
    }
}

// The room, and the place behind what was put. The room is the caller's, and no Vec: a call takes no heap.
#[derive(Drop)]
pub(crate) struct Out<'a> {
    pub(crate) room: &'a mut [u8],
    pub(crate) at: usize,
}

impl Out<'_> {
    pub(crate) fn byte(&mut self, b: u8)
        requires { Has self.old 1 }
        ensures { Puts self.old self.new (b ∷ []) }
    {
        self.room[self.at] = b;
        self.at += 1;
    }

    #[tactic(auto, using(crate::proofs::Place::copied))]
    pub(crate) fn bytes(&mut self, b: &[u8])
        requires { Has self.old (length b.now) }
        ensures { Puts self.old self.new b.now }
    {
        let end = self.at + b.len();
        self.room[self.at..end].copy_from_slice(b);
        self.at = end;
    }

    // Straight into the room: by a buffer and a copy of it `file` took 1.4 of the time, and by a call for each number 1.2, since the place
    // then goes through memory. No `write!`: its contract lets it fail in a room that is long enough, and `file` tells of no such failure.
    #[inline]
    #[tactic(auto, using(crate::proofs::Place::put_to_end))]
    pub(crate) fn decimal(&mut self, n: u64)
        requires { Has self.old (length (decimal n)) }
        ensures { Puts self.old self.new (decimal n) }
    {
        let end = self.at + digits(n);
        write_digits(n, self.room, end);
        self.at = end;
    }

    pub(crate) fn signed(&mut self, z: i32)
        requires { Has self.old (length (signed_decimal z)) }
        ensures { Puts self.old self.new (signed_decimal z) }
    {
        if z < 0 {
            self.byte(b'-');
        }
        self.decimal(named(z));
    }
}
