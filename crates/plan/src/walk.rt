// The operands of a split, and the walk of a set: all that a number reaches.

ghost use Rattle.std.specs.Prelude.{◌≡◌, ◌+◌, ◌/◌, ◌^◌, ◌≤◌, ◌<◌, length};
ghost use Rattle.line.specs.Number.{bit_length};
ghost use Rattle.line.specs.Line.{kind_of};
ghost use Rattle.split.specs.Split.{left_at, right_at};
ghost use Rattle.split.specs.Reach.{adds, follow, reach};
ghost use Rattle.split.specs.Choose.{look};
ghost use Rattle.plan.specs.Steps.{Splits, Fresh, Ready};

use crate::set::Set;
use line::Line;

#[derive(Clone, Copy)]
pub struct Operands {
    pub left: usize,
    pub right: usize,
}

// ---- splits

pub(crate) fn power(p: usize) -> usize
    requires { p < 32 }
    ensures { (result ≡ 2 ^ p) × (0 < result) × (result ≤ 2 ^ 31) }
{
    1 << p
}

// u64 and usize have no From between them, so here and below it is `as`.
pub(crate) fn bits(n: usize) -> usize
    ensures { (result ≡ bit_length n) × (result ≤ 64) }
{
    line::bit_length(n as u64)
}

impl Operands {
    // The operands of n's split of the kind k at p. The kinds are constants of `Line`: document 01's form by place.
    pub(crate) fn at(k: u64, p: usize, n: usize) -> Operands
        requires { Splits k p n }
        ensures { (result.left ≡ left_at (kind_of k) p n) × (result.right ≡ right_at (kind_of k) p n) }
    {
        let q = power(p);
        let high = n / q;
        let low = n % q;
        match k {
            Line::SPLUS => Operands {
                left: high,
                right: low,
            },
            Line::SMINUS => Operands {
                left: high + 1,
                right: q - low,
            },
            _ => {
                let m = bits(n);
                let left = power(m) - q + low;
                let right = power(m - p) - 1 - high;
                Operands { left, right }
            }
        }
    }
}

// ---- the set walk

// Whether x is above 1 and not of the set.
fn fresh(set: &Set, x: usize) -> bool
    ensures { Fresh x set.now result }
{
    1 < x && !set.has(x)
}

// The table's split of n.
#[tactic(auto, unfolding(split::specs::Choose::look))]
pub(crate) fn split_in(work: &[u8], n: usize) -> usize
    requires { n / 2 < length work.now }
    ensures { result ≡ look work.now n }
{
    usize::from(work[n / 2])
}

// Adds each coefficient above 1 that n reaches by its split s, and from there by the table, to the set, which lacks n. A coefficient that
// is there already brings nothing new, so it is not followed again.
pub(crate) fn walk(work: &[u8], set: &mut Set, s: usize, n: usize)
    requires { Ready work.now set.old s n }
    ensures { set.new ≡ adds (follow (reach (look work.now)) s n) set.old }
{
    let o = Operands::at((s / 32) as u64, s % 32, n);

    // Twice, and no loop over both: document 01 has the walk call itself on left and on right.
    if fresh(set, o.left) {
        walk(work, set, split_in(work, o.left), o.left);
    }
    if fresh(set, o.right) {
        walk(work, set, split_in(work, o.right), o.right);
    }
    set.push(n);
}
