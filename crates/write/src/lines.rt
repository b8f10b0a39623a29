// The columns of a line and the lines of a recipe. Operands stand as codes in a scratch room.

ghost use Rattle.std.specs.Prelude.{◌≡◌, [], ◌∷◌, ◌+◌, ◌-◌, ◌*◌, ◌^◌, ◌≤◌, ◌<◌, length, take};
ghost use Rattle.std.proofs.lemmas.List.Edits.{sets};
ghost use Rattle.write.specs.Sizes.{most_columns};
ghost use Rattle.line.specs.Limits.{most_width, most_coefficient};
ghost use Rattle.line.specs.Line.{kind_of};
ghost use Rattle.gates.specs.Code.{bit_of, bits_of};
ghost use Rattle.product.specs.Lines.{adder, line_sum, columns, encoded};
ghost use Rattle.product.specs.Product.{lines_from};
ghost use Rattle.write.specs.Terms.{listed, term_code, shift_of_left, shift_of_right, taken_off, operand_at};
ghost use Rattle.write.specs.Rooms.{CanSum, SumIs, TermsAre, CanLine, CanLines, LinesAre};

use crate::column::column;
use gates::{Taken, flipped, write_column};
use line::Line;

// ---- a sum of two terms

// Where writing stands: the next free variable, and the words and clauses so far.
#[derive(Clone, Copy, Debug, PartialEq, Eq)]
pub struct Place {
    pub next: u32,
    pub words: usize,
    pub clauses: usize,
}

impl Place {
    // Behind a column that took so much, with the next free variable that it left.
    fn after(self, took: Taken, next: u32) -> Place
        requires { (self.words + took.words < 2 ^ 64) × (self.clauses + took.clauses < 2 ^ 64) }
        ensures { result ≡ record { next = next; words = self.words + took.words; clauses = self.clauses + took.clauses } }
    {
        Place {
            next,
            words: self.words + took.words,
            clauses: self.clauses + took.clauses,
        }
    }
}

// The sum of two terms of m columns, from a place on: its bits go to the front of sums. Each column is lent the rest of the room, which
// starts at its end where no more words fit; these are counted all the same. m stands beside the terms, since the clauses speak of it.
fn write_sum(
    left: &[u32],
    right: &[u32],
    first: u32,
    m: usize,
    from: Place,
    sums: &mut [u32],
    room: &mut [i32],
) -> Place
    requires { CanSum left.now right.now first from m sums.old }
    ensures { SumIs (adder (bits_of left.now) (bits_of right.now) (bit_of first) from.next) from m 0 result
        sums.old sums.new room.old room.new }
{
    let mut carry = first;
    let mut place = from;
    for j in 0..m {
        let c = column(left[j], right[j], carry, j + 1 == m, place.next);
        sums[j] = c.sum;
        let start = place.words.min(room.len());
        let took = write_column(c.parity, c.majority, &mut room[start..]);
        place = place.after(took, c.next);
        carry = c.carry;
    }
    place
}

// ---- a line

// A line has at most 36 columns: 20 bits of its coefficient and 16 of x.
pub(crate) const MOST_COLUMNS: usize = 36;

#[tactic(auto, unfolding(crate::specs::Terms::term_code))]
fn term_bit(bits: &[u32], s: usize, f: u32, j: usize) -> u32
    requires { j < length bits.now }
    ensures { result ≡ term_code bits.now s f j }
{
    if j < s {
        flipped(0, f)
    } else {
        flipped(bits[j - s], f)
    }
}

// The columns of operand i of a scratch room.
#[tactic(auto, using(crate::proofs::Tables::operand_part))]
pub(crate) fn operand(scratch: &[u32], i: usize) -> &[u32]
    requires { most_columns * i + most_columns ≤ length scratch.now }
    ensures { result.now ≡ operand_at scratch.now i }
{
    let a = MOST_COLUMNS * i;
    &scratch[a..a + MOST_COLUMNS]
}

// The first m columns of operand i of a scratch room, shifted by s, negated if f is odd.
#[tactic(auto, using(crate::proofs::Tables::table_steps))]
fn term(scratch: &[u32], i: usize, s: usize, f: u32, m: usize, out: &mut [u32])
    requires { (most_columns * i + most_columns ≤ length scratch.now) × (m ≤ most_columns) × (m ≤ length out.old) }
    ensures { out.new ≡ sets out.old 0 (listed (term_code (operand_at scratch.now i) s f) m) }
{
    let bits = operand(scratch, i);
    for j in 0..m {
        out[j] = term_bit(bits, s, f, j);
    }
}

// The kinds are constants of `Line`: document 01's form by place.
#[tactic(auto, unfolding(crate::specs::Terms::shift_of_left, line::specs::Line::kind_of))]
fn shift_of_left(kind: u64, s: usize) -> usize
    ensures { result ≡ shift_of_left (kind_of kind) s }
{
    match kind {
        Line::SPLUS | Line::SMINUS => s,
        _ => 0,
    }
}

#[tactic(auto, unfolding(crate::specs::Terms::shift_of_right, line::specs::Line::kind_of))]
fn shift_of_right(kind: u64, s: usize) -> usize
    ensures { result ≡ shift_of_right (kind_of kind) s }
{
    match kind {
        Line::SPLUS | Line::SMINUS => 0,
        _ => s,
    }
}

// 1 where the right term is taken off: its columns are negated, and the first carry is 1. A number, since `gates::flipped` takes one, which
// may be a fixed bit's code too; the kinds are constants of `Line`, as above.
#[tactic(auto, unfolding(crate::specs::Terms::taken_off, line::specs::Line::kind_of))]
fn taken_off(kind: u64) -> u32
    ensures { result ≡ taken_off (kind_of kind) }
{
    if kind == Line::SPLUS { 0 } else { 1 }
}

// The first m columns of a line's two terms.
fn terms(l: Line, m: usize, scratch: &[u32], left: &mut [u32], right: &mut [u32])
    requires most_columns_in_bounds { (most_columns * l.left + most_columns ≤ length scratch.now)
        × (most_columns * l.right + most_columns ≤ length scratch.now) }
    requires m_le_most_columns { (m ≤ most_columns) × (m ≤ length left.old) × (m ≤ length right.old) }
    ensures { TermsAre l m scratch.now left.old left.new right.old right.new }
{
    // usize has no From of u64.
    let s = l.shift as usize;
    term(scratch, l.left, shift_of_left(l.kind, s), 0, m, left);
    term(
        scratch,
        l.right,
        shift_of_right(l.kind, s),
        taken_off(l.kind),
        m,
        right,
    );
}

// A line of m columns: its operands' bits are read at their places in the scratch room, and its own are stored at its place, which is a
// line's number and no part that is lent: the operands stand in the same room.
fn write_line(
    l: Line,
    m: usize,
    at: usize,
    from: Place,
    scratch: &mut [u32],
    room: &mut [i32],
) -> Place
    requires { CanLine l m at from scratch.old }
    ensures { SumIs (line_sum (kind_of l.kind) m (bits_of (operand_at scratch.old l.left)) l.shift
        (bits_of (operand_at scratch.old l.right)) from.next) from m (most_columns * at) result
        scratch.old scratch.new room.old room.new }
{
    let mut left = [0u32; MOST_COLUMNS];
    let mut right = [0u32; MOST_COLUMNS];
    terms(l, m, scratch, &mut left, &mut right);
    let o = MOST_COLUMNS * at;
    let first = taken_off(l.kind);
    write_sum(
        &left[..m],
        &right[..m],
        first,
        m,
        from,
        &mut scratch[o..],
        room,
    )
}

// ---- a recipe

// The largest x of w bits. A width is a number here, and no type with its limit, which would be as long in the three functions that ask it.
pub(crate) fn largest(w: usize) -> u64
    requires { w ≤ most_width }
    ensures { (result ≡ 2 ^ w - 1) × (result < 65536) }
{
    (1u64 << w) - 1
}

#[tactic(auto, using(crate::proofs::CodeLines::small_product), unfolding(product::specs::Lines::columns))]
fn columns_of(w: usize, k: u64) -> usize
    requires { (w ≤ most_width) × (k ≤ most_coefficient) }
    ensures { (result ≡ columns w k) × (result ≤ 64) }
{
    line::bit_length(k * largest(w))
}

// The n lines of a recipe, in order. x is the first w bits of the scratch room, and next the first free variable. Each line is read from
// its own place, as a part of what was lent: a form of document 01 by place, so no iterator over chunks.
pub(crate) fn write_lines(
    recipe: &[u8],
    n: usize,
    w: usize,
    next: u32,
    scratch: &mut [u32],
    room: &mut [i32],
) -> Place
    requires { CanLines recipe.now n w next scratch.old }
    ensures { LinesAre
        (encoded (columns w) (lines_from recipe.now 0 n) (bits_of (take w scratch.old) ∷ []) next) next result
        scratch.new room.old room.new }
{
    let mut place = Place {
        next,
        words: 0,
        clauses: 0,
    };
    for i in 0..n {
        let a = i * Line::BYTES;
        let l = Line::read(&recipe[a..a + Line::BYTES]);
        let m = columns_of(w, l.coefficient);
        place = write_line(l, m, i + 1, place, scratch, room);
    }
    place
}
