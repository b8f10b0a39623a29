// The chosen split of a number, by a table of the splits, and of the counts, of the numbers before it.

ghost use Rattle.std.specs.Prelude.{◌≡◌, true, ◌+◌, ◌*◌, ◌/◌, ◌≤◌, ◌<◌, [], length};
ghost use Rattle.split.specs.Choose.{lines, better, best_below, look};
ghost use Rattle.plan.specs.Steps.{Splits, Known, Ready, Places, Hopeless};

use crate::set::Set;
use crate::walk::{Operands, bits, power, walk};
use line::Line;
use split::Best;

// Whether the counts of its operands l and r show that a split has no fewer coefficients than fewest: it has its own and all that each
// operand has, and an operand does not reach a longer one.
#[tactic(auto, unfolding(split::specs::Choose::look))]
fn hopeless(counts: &[u8], l: usize, r: usize, fewest: usize) -> bool
    requires { (l / 2 < length counts.now) × (r / 2 < length counts.now) }
    ensures { result ≡ true → Hopeless l (look counts.now l) r (look counts.now r) fewest }
{
    let a = usize::from(counts[l / 2]) + 1;
    if fewest <= a {
        return true;
    }
    let c = usize::from(counts[r / 2]) + 1;
    if fewest <= c {
        return true;
    }
    let i = bits(l);
    let j = bits(r);
    if i < j {
        return fewest <= a + 1;
    }
    if j < i {
        return fewest <= c + 1;
    }
    false
}

// A number, and the table of the splits, and that of the counts, of the numbers before it. Two tables and no table of pairs: the splits are
// the caller's room, in document 01's form.
#[derive(Clone, Copy)]
pub(crate) struct Number<'a> {
    pub(crate) work: &'a [u8],
    pub(crate) counts: &'a [u8],
    pub(crate) n: usize,
    ghost known: { Known work.now counts.now n },
}

impl Number<'_> {
    // How many coefficients the set of the number's split s has.
    fn count(self, set: &mut Set, s: usize) -> usize
        requires { Ready self.work.now [] s self.n }
        ensures { result ≡ lines (look self.entry.work.now) s self.entry.n }
    {
        set.clear();
        walk(self.work, set, s, self.n);
        set.len()
    }

    // The better of the number's split of the kind k at p and the best so far. A split that cannot win is not counted.
    // No Option<Best> for none: tried and proved, it is no plainer, since its clauses need a relation between it and the definition's Best;
    // and planning took 1.12 of the time at L = 16.
    fn better_of(self, set: &mut Set, k: u64, p: usize, b: Best) -> Best
        requires { Splits k p self.n }
        ensures { result ≡ better lines (look self.entry.work.now) self.entry.n (32 * k + p) b }
    {
        // u64 has no From to usize.
        let s = 32 * (k as usize) + p;
        let o = Operands::at(k, p, self.n);
        let old = b.split;
        let fewest = b.cost;
        if old == 0 {
            let c = self.count(set, s);
            return Best { split: s, cost: c };
        }
        if hopeless(self.counts, o.left, o.right, fewest) {
            return b;
        }
        let c = self.count(set, s);
        if c < fewest {
            return Best { split: s, cost: c };
        }
        b
    }

    // The best split, from the best of the kinds before k, with those of the kind k. Bit p of places says whether there is one at p. The
    // kinds are constants of `Line`: document 01's form by place.
    fn best_of(self, set: &mut Set, k: u64, places: u64, first: Best) -> Best
        requires { (1 ≤ k) × (k ≤ 3) × (first ≡ best_below lines (look self.work.now) self.n (32 * k)) × (Places k places self.n) }
        ensures { result ≡ best_below lines (look self.entry.work.now) self.entry.n (32 * k + 32) }
    {
        let mut b = first;
        let mut p = 1;
        let mut rest = places / 2;
        // No for: p goes from one set bit to the next, and no range counts these.
        while 0 < rest {
            p += line::twos(rest);
            b = self.better_of(set, k, p, b);
            p += 1;
            rest = line::odd_part(rest) / 2;
        }
        b
    }

    // SPLUS has a split at each p where n's bit is 1, SMINUS where it is 0, MINUSS where it is 0 and below the top.
    #[tactic(auto, using(line::proofs::Number::bits_lt))]
    pub(crate) fn chosen(self, set: &mut Set) -> Best
        ensures { result ≡ best_below lines (look self.entry.work.now) self.entry.n 128 }
    {
        let n = self.n;
        let whole = power(bits(n));
        // usize has no From to u64.
        let ones = n as u64;
        let zeros = (2 * whole - 1 - n) as u64;
        let inner = (whole - 1 - n) as u64;
        let z = Best { split: 0, cost: 0 };
        let a = self.best_of(set, Line::SPLUS, ones, z);
        let b = self.best_of(set, Line::SMINUS, zeros, a);
        self.best_of(set, Line::MINUSS, inner, b)
    }
}
