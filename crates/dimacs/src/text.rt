// The file and its parts, put into a lent room.
ghost use Rattle.std.specs.Prelude.{◌∷◌, ◌+◌, ◌*◌, ◌≤◌, length};
ghost use Rattle.line.specs.Refusal.{refusal_number};
ghost use Rattle.wording.specs.Decimal.{signed_decimal};
ghost use Rattle.wording.specs.File.{number_text, two_numbers, entries, line_2, word_text, words_text, file_text, refused_text};
ghost use Rattle.dimacs.specs.Puts.{Has, Puts};

use crate::put::Out;
use line::Refusal;

impl Out<'_> {
    // A name, a number and a byte behind it.
    #[tactic(auto, using(crate::proofs::Digits::decimals))]
    fn number(&mut self, name: &[u8], n: u64, last: u8)
        requires { Has self.old (length name.now + 21) }
        ensures put { Puts self.old self.new (number_text name.now n last) }
        ensures short { self.new.at ≤ self.old.at + (length name.now + 21) }
    {
        self.bytes(name);
        self.decimal(n);
        self.byte(last);
    }

    fn two_numbers(&mut self, name: &[u8], m: u64, n: u64)
        requires { Has self.old (length name.now + 42) }
        ensures put { Puts self.old self.new (two_numbers name.now m n) }
        ensures short { self.new.at ≤ self.old.at + (length name.now + 42) }
    {
        self.number(name, m, b' ');
        self.number(b"", n, b'\n');
    }

    // A space before each entry of y.
    #[tactic(auto, using(crate::proofs::Digits::signs))]
    fn entry(&mut self, y: i32)
        requires { Has self.old 12 }
        ensures put { Puts self.old self.new (32 ∷ signed_decimal y) }
        ensures short { self.new.at ≤ self.old.at + 12 }
    {
        self.byte(b' ');
        self.signed(y);
    }

    // Here and in `words` a loop of one line: what is generic in the two is the `for`.
    #[tactic(auto, using(crate::proofs::Place::puts_none), unfolding(wording::specs::File::entries))]
    fn entries(&mut self, ys: &[i32])
        requires { Has self.old (12 * length ys.now) }
        ensures put { Puts self.old self.new (entries ys.now) }
        ensures short { self.new.at ≤ self.old.at + 12 * length ys.now }
    {
        for y in ys {
            self.entry(*y);
        }
    }

    fn line_2(&mut self, ys: &[i32])
        requires { Has self.old (4 + 12 * length ys.now) }
        ensures put { Puts self.old self.new (line_2 ys.now) }
        ensures short { self.new.at ≤ self.old.at + (4 + 12 * length ys.now) }
    {
        self.bytes(b"c y");
        self.entries(ys);
        self.byte(b'\n');
    }

    // A newline behind a 0, and a space behind each other word.
    #[tactic(auto, using(crate::proofs::Digits::signs))]
    fn word(&mut self, z: i32)
        requires { Has self.old 12 }
        ensures put { Puts self.old self.new (word_text z) }
        ensures short { self.new.at ≤ self.old.at + 12 }
    {
        self.signed(z);
        self.byte(if z == 0 { b'\n' } else { b' ' });
    }

    #[tactic(auto, using(crate::proofs::Place::puts_none), unfolding(wording::specs::File::words_text))]
    fn words(&mut self, words: &[i32])
        requires { Has self.old (12 * length words.now) }
        ensures put { Puts self.old self.new (words_text words.now) }
        ensures short { self.new.at ≤ self.old.at + 12 * length words.now }
    {
        for z in words {
            self.word(*z);
        }
    }

    pub(crate) fn file(
        &mut self,
        c: u64,
        w: u64,
        ys: &[i32],
        highest: u64,
        clauses: u64,
        words: &[i32],
    )
        requires { Has self.old (100 + 12 * (length ys.now + length words.now)) }
        ensures { Puts self.old self.new (file_text c w ys.now highest clauses words.now) }
    {
        self.two_numbers(b"c mul ", c, w);
        self.line_2(ys);
        self.two_numbers(b"p cnf ", highest, clauses);
        self.words(words);
    }

    pub(crate) fn refusal(&mut self, x: Refusal)
        requires { Has self.old 29 }
        ensures { Puts self.old self.new (refused_text (refusal_number x)) }
    {
        self.number(b"refused ", x.number(), b'\n');
    }
}
