// The fill of the table: a number's entry is chosen by the entries of those before it.

ghost use Rattle.std.specs.Prelude.{◌≡◌, ◌-◌, ◌^◌, ◌≤◌, ◌<◌, length};
ghost use Rattle.line.specs.Limits.{most_bits};
ghost use Rattle.split.specs.Choose.{split_of, line_count};
ghost use Rattle.plan.specs.Steps.{Filled, HoldsSplits};

use crate::choose::Number;
use crate::set::Set;
use crate::walk::power;
use line::Line;

// A count for each odd number of a constant's bits.
const COUNTS: usize = 1 << (Line::MOST_BITS - 1);

// Fills the splits, and the counts, of the numbers of m bits, from the largest down: then every operand is there before it is looked up.
fn fill_length(work: &mut [u8], counts: &mut [u8], set: &mut Set, m: usize)
    requires { (1 < m) × (m < 32) × (2 ^ (m - 1) ≤ length work.old) × (2 ^ (m - 1) ≤ length counts.old)
        × (Filled split_of work.old work.old (m - 1))
        × (Filled (line_count split_of) counts.old counts.old (m - 1)) }
    ensures { (Filled split_of work.old work.new m)
        × (Filled (line_count split_of) counts.old counts.new m) }
{
    let low = power(m - 2);
    let end = power(m - 1);
    for i in (low..end).rev() {
        let number = Number {
            work,
            counts,
            n: 2 * i + 1,
        };
        let b = number.chosen(set);
        // From does not narrow; `split_fits` and `count_fits` show that both fit.
        work[i] = b.split as u8;
        counts[i] = b.cost as u8;
    }
}

// Fills the work room's first 2^(top - 1) bytes with the chosen splits.
pub(crate) fn fill(work: &mut [u8], top: usize)
    requires { (0 < top) × (top ≤ most_bits) × (2 ^ (top - 1) ≤ length work.old) }
    ensures { HoldsSplits split_of work.old top work.new }
{
    let mut counts = [0u8; COUNTS];
    let mut set = Set::new();
    work[0] = 0;
    for m in 2..=top {
        fill_length(work, &mut counts, &mut set, m);
    }
}
