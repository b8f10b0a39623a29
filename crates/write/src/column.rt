// A column of codes: the only place that opens a variable or makes a clause.

ghost use Rattle.std.specs.Prelude.{◌≡◌, ◌+◌, ◌/◌, ◌≤◌, ◌<◌};
ghost use Rattle.line.specs.Limits.{most_next};
ghost use Rattle.product.specs.Column.{column};
ghost use Rattle.gates.specs.Code.{bit_of};
ghost use Rattle.write.specs.Column.{pair_of_codes, inputs_sum, inputs_carry, FixedFew, Sees, MatchesBit, MatchesColumn};

use gates::{Gate, flipped};

// ---- a column's inputs

// An equal pair's literal and the input that remains; the input that remains beside an opposite pair; the fixed input and the other two in
// their order; three unfixed inputs.
#[derive(Clone, Copy, Debug, PartialEq, Eq)]
pub enum Inputs {
    Equal(u32, u32),
    Opposite(u32),
    Two(u32, u32, u32),
    Three(u32, u32, u32),
}

// a and b are codes of one variable.
#[tactic(auto, unfolding(crate::specs::Column::pair_of_codes))]
fn pair(a: u32, b: u32, rest: u32) -> Inputs
    ensures { result ≡ pair_of_codes a b rest }
{
    if a == b {
        Inputs::Equal(a, rest)
    } else {
        Inputs::Opposite(rest)
    }
}

// A fixed bit counts as a literal of variable 0: two of them are a pair like any other, so no case of none or one unfixed input is left.
#[tactic(auto, using(crate::proofs::CodeColumns::seen_by_pairs))]
fn inputs_of(left: u32, right: u32, carry: u32) -> Inputs
    ensures { Sees result (bit_of left) (bit_of right) (bit_of carry) }
{
    if left / 2 == right / 2 {
        return pair(left, right, carry);
    }
    if left / 2 == carry / 2 {
        return pair(left, carry, right);
    }
    if right / 2 == carry / 2 {
        return pair(right, carry, left);
    }
    if left < 2 {
        return Inputs::Two(left, right, carry);
    }
    if right < 2 {
        return Inputs::Two(right, left, carry);
    }
    if carry < 2 {
        return Inputs::Two(carry, left, right);
    }
    Inputs::Three(left, right, carry)
}

// ---- a column

// A bit, its gate, and the next free variable.
#[derive(Clone, Copy, Debug, PartialEq, Eq)]
pub struct MadeBit {
    pub bit: u32,
    pub gate: Gate,
    pub next: u32,
}

#[derive(Clone, Copy, Debug, PartialEq, Eq)]
pub struct MadeColumn {
    pub sum: u32,
    pub carry: u32,
    pub next: u32,
    pub parity: Gate,
    pub majority: Gate,
}

// z is the next free variable.
#[tactic(auto, using(crate::proofs::CodeColumns::sum_steps))]
fn sum_bit(i: Inputs, z: u32) -> MadeBit
    requires { (0 < z) × ((inputs_sum i z).next ≤ most_next) }
    ensures { MatchesBit z result (inputs_sum i z) }
{
    match i {
        Inputs::Equal(_, rest) => MadeBit {
            bit: rest,
            gate: Gate::Empty,
            next: z,
        },
        Inputs::Opposite(rest) => MadeBit {
            bit: flipped(rest, 1),
            gate: Gate::Empty,
            next: z,
        },
        Inputs::Two(f, p, q) => MadeBit {
            bit: 2 * z,
            gate: Gate::ParityOfTwo(p, q, flipped(2 * z, f)),
            next: z + 1,
        },
        Inputs::Three(p, q, r) => MadeBit {
            bit: 2 * z,
            gate: Gate::ParityOfThree(p, q, r, 2 * z),
            next: z + 1,
        },
    }
}

// t is the next free variable. One of p and q is both of their negations, negated.
#[tactic(auto, using(crate::proofs::CodeColumns::carry_steps))]
fn carry_bit(i: Inputs, t: u32) -> MadeBit
    requires { FixedFew i × (0 < t) × ((inputs_carry i t).next ≤ most_next) }
    ensures { MatchesBit t result (inputs_carry i t) }
{
    match i {
        Inputs::Equal(p, _) => MadeBit {
            bit: p,
            gate: Gate::Empty,
            next: t,
        },
        Inputs::Opposite(rest) => MadeBit {
            bit: rest,
            gate: Gate::Empty,
            next: t,
        },
        Inputs::Two(f, p, q) => MadeBit {
            bit: 2 * t,
            gate: Gate::Both(flipped(p, f), flipped(q, f), flipped(2 * t, f)),
            next: t + 1,
        },
        Inputs::Three(p, q, r) => MadeBit {
            bit: 2 * t,
            gate: Gate::Most(p, q, r, 2 * t),
            next: t + 1,
        },
    }
}

// The sum before the carry, and no carry in the last column: one test, and no step handed in, which would be longer.
#[tactic(auto, using(crate::proofs::CodeColumns::column_steps))]
pub(crate) fn column(left: u32, right: u32, carry: u32, last: bool, next: u32) -> MadeColumn
    requires { (0 < next) × ((column (bit_of left) (bit_of right) (bit_of carry) last next).next ≤ most_next) }
    ensures { MatchesColumn next result (column (bit_of left) (bit_of right) (bit_of carry) last next) }
{
    let i = inputs_of(left, right, carry);
    let s = sum_bit(i, next);
    let t = if last {
        MadeBit {
            bit: 0,
            gate: Gate::Empty,
            next: s.next,
        }
    } else {
        carry_bit(i, s.next)
    };
    MadeColumn {
        sum: s.bit,
        carry: t.bit,
        next: t.next,
        parity: s.gate,
        majority: t.gate,
    }
}
