// One recipe line: its fields, its forty bits and its limits; and the refusals that every call answers with.

#![tactic(auto)]

ghost use Rattle.std.specs.Prelude.{◌≡◌, ◌+◌, ◌*◌, ◌%◌, ◌<◌, ◌≤◌, ◌^◌, pos, ◌-ℤ◌, nat_abs, get_or};
ghost use Rattle.line.specs.Number.{bit_length, twos, odd_part};
ghost use Rattle.line.specs.Line.{gives_within, number, line_of, forty_bits, bytes_of};
ghost use Rattle.line.specs.Limits.{out_of_range, not_a_width};
ghost use Rattle.line.specs.Refusal.{told, refusal_number, told_of, number_of};

// The fields of a line in the order of its forty bits.
#[derive(Clone, Copy, Debug, PartialEq, Eq)]
pub struct Line {
    pub top: u64,
    pub kind: u64,
    pub left: usize,
    pub shift: u64,
    pub right: usize,
    pub coefficient: u64,
}

impl Line {
    // The kinds are numbers and constants here, and no enum: document 01's form at this place, as are shifts and masks for the fields.
    pub const SPLUS: u64 = 1;

    pub const SMINUS: u64 = 2;

    pub const MINUSS: u64 = 3;

    pub const BYTES: usize = 5;

    pub const MOST_LINES: usize = 32;

    pub const MOST_COEFFICIENT: u64 = 1_048_575;

    pub const MOST_CONSTANT: u64 = 65_535;

    pub const MOST_WIDTH: u64 = 16;

    // The next free number is at most this.
    pub const MOST_NEXT: u64 = 2_147_483_648;

    // The bits of a constant.
    pub const MOST_BITS: usize = 16;

    // A line of a kind, with the top bit zero.
    pub fn made(kind: u64, left: usize, shift: u64, right: usize, coefficient: u64) -> Self
        ensures { result ≡ record { top = 0; kind = kind; left = left; shift = shift; right = right; coefficient = coefficient } }
    {
        Line {
            top: 0,
            kind,
            left,
            shift,
            right,
            coefficient,
        }
    }

    // What the kind makes of operands with the coefficients l and r; it may be below 0. Of a field and of a coefficient only the bits that
    // the form gives it, and a code that is no kind as the last one's, so that every line has an answer.
    pub fn gives(self, l: u64, r: u64) -> i64
        ensures { result ≡ gives_within self l r }
    {
        let kind = self.kind % 4;
        let s = self.shift % 32;
        let left = l % (Line::MOST_COEFFICIENT + 1);
        let right = r % (Line::MOST_COEFFICIENT + 1);
        match kind {
            Line::SPLUS => (shifted(left, s) + right) as i64,
            Line::SMINUS => difference(shifted(left, s), right),
            _ => difference(left, shifted(right, s)),
        }
    }

    // The line that five bytes are; a byte that is missing counts as 0.
    pub fn read(part: &[u8]) -> Self
        ensures { result ≡ line_of (number part.now) }
    {
        unpacked(joined(part))
    }

    // The forty bits; of a field only the bits that the form gives it.
    fn packed(self) -> u64
        ensures { (result ≡ forty_bits self) × (result < 2 ^ 40) }
    {
        let a = join(0, 1, self.top);
        let b = join(a, 2, self.kind);
        let c = join(b, 6, self.left as u64);
        let d = join(c, 5, self.shift);
        let e = join(d, 6, self.right as u64);
        join(e, 20, self.coefficient)
    }

    pub fn bytes(self) -> [u8; Line::BYTES]
        ensures { result ≡ bytes_of (forty_bits self) }
    {
        let v = self.packed();
        [
            ((v >> 32) & 255) as u8,
            ((v >> 24) & 255) as u8,
            ((v >> 16) & 255) as u8,
            ((v >> 8) & 255) as u8,
            (v & 255) as u8,
        ]
    }
}

// A coefficient, shifted.
fn shifted(a: u64, s: u64) -> u64
    requires { (a < 2 ^ 20) × (s < 2 ^ 5) }
    ensures { (result ≡ a * 2 ^ s) × (result < 2 ^ 52) }
{
    a << s
}

// A difference, which may be below 0.
fn difference(a: u64, b: u64) -> i64
    requires { (a < 2 ^ 52) × (b < 2 ^ 52) }
    ensures { result ≡ pos a -ℤ pos b }
{
    a as i64 - b as i64
}

// The low k bits of f below v.
fn join(v: u64, k: u64, f: u64) -> u64
    requires { (v < 2 ^ 40) × (k ≤ 20) }
    ensures { result ≡ v * 2 ^ k + f % 2 ^ k }
{
    (v << k) | (f & ((1 << k) - 1))
}

// Byte i below v; 0 where there is no such byte.
fn byte_below(v: u64, part: &[u8], i: usize) -> u64
    requires { v < 2 ^ 32 }
    ensures { (result ≡ v * 256 + get_or part.now i 0) × (result < v * 256 + 256) }
{
    join(v, 8, u64::from(part.get(i).copied().unwrap_or(0)))
}

// The number that five bytes are, most significant first.
fn joined(part: &[u8]) -> u64
    ensures { result ≡ number part.now }
{
    let a = byte_below(0, part, 0);
    let b = byte_below(a, part, 1);
    let c = byte_below(b, part, 2);
    let d = byte_below(c, part, 3);
    byte_below(d, part, 4)
}

// The fields that forty bits are.
fn unpacked(v: u64) -> Line
    ensures { result ≡ line_of v }
{
    Line {
        top: v >> 39,
        kind: (v >> 37) & 3,
        left: ((v >> 31) & 63) as usize,
        shift: (v >> 26) & 31,
        right: ((v >> 20) & 63) as usize,
        coefficient: v & Line::MOST_COEFFICIENT,
    }
}

// The number of binary digits of v. Between usize and u64, and to a narrower type, there is no From, so here and above it is `as`.
pub fn bit_length(v: u64) -> usize
    ensures { (result ≡ bit_length v) × (result ≤ 64) }
{
    64 - (u64::leading_zeros(v) as usize)
}

// t of c = d * 2^t with d odd.
pub fn twos(c: u64) -> usize
    ensures { (result ≡ twos c) × (result < 64) }
{
    if c == 0 {
        return 0;
    }
    u64::trailing_zeros(c) as usize
}

// d of c = d * 2^t with d odd.
pub fn odd_part(c: u64) -> u64
    ensures { (result ≡ odd_part c) × (result ≤ c) }
{
    c >> twos(c)
}

// Whether rule 1 refuses c.
pub fn out_of_range(c: u64) -> bool
    ensures { result ≡ out_of_range c }
{
    c == 0 || Line::MOST_CONSTANT < c
}

// Whether rule 2 refuses w.
pub fn not_a_width(w: u32) -> bool
    ensures { result ≡ not_a_width w }
{
    w == 0 || Line::MOST_WIDTH < u64::from(w)
}

// The magnitude of a number with a sign, the least one too.
pub fn magnitude(z: i64) -> u64
    ensures { result ≡ nat_abs z }
{
    z.unsigned_abs()
}

// Why a call refuses: document 01's list, in its order, and then document 02's. Those that speak of a recipe's line hold its number, from 1
// on, and the last of them the value that the line really gives.
#[derive(Clone, Copy, Debug, PartialEq, Eq)]
pub enum Refusal {
    Constant,
    Width,
    Length,
    Form(usize),
    Operand(usize),
    Even(usize),
    Value(usize, i64),
    Product,
    BitRoom,
    ClauseRoom,
    WorkRoom,
    RecipeRoom,
    Input,
    Literals,
    Variables,
    Allowance,
    Words,
    Conflict,
    Given,
}

// What an answer tells of a refusal: the documents' number, the line and the value; zero where there is none, since C gets these numbers.
#[derive(Clone, Copy, Debug, PartialEq, Eq)]
pub struct Told {
    pub number: u64,
    pub line: usize,
    pub value: i64,
}

fn tell(number: u64, line: usize, value: i64) -> Told
    ensures { result ≡ record { number = number; line = line; value = value } }
{
    Told {
        number,
        line,
        value,
    }
}

impl Refusal {
    pub fn told(self) -> Told
        ensures { (result ≡ told self) × (result.number < 100) }
    {
        match self {
            Refusal::Constant => tell(1, 0, 0),
            Refusal::Width => tell(2, 0, 0),
            Refusal::Length => tell(3, 0, 0),
            Refusal::Form(line) => tell(4, line, 0),
            Refusal::Operand(line) => tell(5, line, 0),
            Refusal::Even(line) => tell(6, line, 0),
            Refusal::Value(line, value) => tell(7, line, value),
            Refusal::Product => tell(8, 0, 0),
            Refusal::BitRoom => tell(9, 0, 0),
            Refusal::ClauseRoom => tell(10, 0, 0),
            Refusal::WorkRoom => tell(11, 0, 0),
            Refusal::RecipeRoom => tell(12, 0, 0),
            Refusal::Input => tell(13, 0, 0),
            Refusal::Literals => tell(14, 0, 0),
            Refusal::Variables => tell(15, 0, 0),
            Refusal::Allowance => tell(20, 0, 0),
            Refusal::Words => tell(21, 0, 0),
            Refusal::Conflict => tell(22, 0, 0),
            Refusal::Given => tell(26, 0, 0),
        }
    }

    // The documents' number.
    pub fn number(self) -> u64
        ensures { (result ≡ refusal_number self) × (result < 100) }
    {
        self.told().number
    }
}

// What an answer tells: of a refusal what it tells, of a success nothing.
pub fn told_of<T>(answer: &Result<T, Refusal>) -> Told
    ensures { result ≡ told_of answer.now }
{
    match answer {
        Ok(_) => tell(0, 0, 0),
        Err(x) => x.told(),
    }
}

// The documents' number, 0 for success.
pub fn number_of<T>(answer: &Result<T, Refusal>) -> u64
    ensures { (result ≡ number_of answer.now) × (result < 100) }
{
    match answer {
        Ok(_) => 0,
        Err(x) => x.number(),
    }
}
