// The clauses of a column: bits as codes, gates of codes, and the words of gates.

#![tactic(auto)]

ghost use Rattle.std.specs.Prelude.{◌≡◌, ◌+◌, ◌≤◌, length};
ghost use Rattle.std.proofs.lemmas.List.Edits.{sets};
ghost use Rattle.cnf.specs.Words.{word, words};
ghost use Rattle.gates.specs.Code.{literal_of, negated_code, flipped_code, code_words};
ghost use Rattle.gates.specs.Gate.{gate_clauses, column_clauses, taken, after};

// ---- codes

// A bit is a code: 0 and 1 are the fixed bits, 2 * v is variable v, and 2 * v + 1 its negation. No type of its own: every u32 is one, so
// that a type would hold no fact, and `flipped` and `word` are public over u32.
#[tactic(auto, using(crate::proofs::Codes::negated_even, crate::proofs::Codes::negated_odd))]
fn negated(b: u32) -> u32
    ensures { result ≡ negated_code b }
{
    if b % 2 == 0 { b + 1 } else { b - 1 }
}

// Negated if f is odd.
#[tactic(auto, using(crate::proofs::Codes::flipped_odd, crate::proofs::Codes::flipped_even))]
pub fn flipped(b: u32, f: u32) -> u32
    ensures { result ≡ flipped_code b f }
{
    if f % 2 == 0 { b } else { negated(b) }
}

// The word of a code's literal; the codes 0 and 1, of the fixed bits, have the word 0. The cast is to a narrower type, which has no From.
#[tactic(auto, using(crate::proofs::Stores::word_steps))]
pub fn word(b: u32) -> i32
    ensures { result ≡ word (literal_of b) }
{
    let v = (b / 2) as i32;
    if b % 2 == 0 { v } else { -v }
}

// ---- gates

// The clauses that tie a new variable to its inputs. The last code is the new variable's, or that of its negation. `Empty` is a gate of no
// clause, written and counted like the others, and so no Option around them.
#[derive(Clone, Copy, Debug, PartialEq, Eq)]
pub enum Gate {
    Empty,
    ParityOfTwo(u32, u32, u32),
    ParityOfThree(u32, u32, u32, u32),
    Both(u32, u32, u32),
    Most(u32, u32, u32, u32),
}

// The words and the clauses that something takes.
#[derive(Clone, Copy, Debug, PartialEq, Eq)]
pub struct Taken {
    pub words: usize,
    pub clauses: usize,
}

#[tactic(auto, unfolding(crate::specs::Gate::taken, product::specs::Column::parity, product::specs::Column::both, product::specs::Column::most))]
fn gate_taken(g: Gate) -> Taken
    ensures { result ≡ taken (gate_clauses g) }
{
    let (words, clauses) = match g {
        Gate::Empty => (0, 0),
        Gate::ParityOfTwo(..) => (16, 4),
        Gate::ParityOfThree(..) => (40, 8),
        Gate::Both(..) => (10, 3),
        Gate::Most(..) => (24, 6),
    };
    Taken { words, clauses }
}

// Each code's word, from a place of a room on. The code 0 closes a clause. A place and no part that is lent: four parts of one room would
// have to be put together again, which is no plainer.
#[tactic(auto, using(crate::proofs::Stores::words_more))]
fn store(codes: &[u32], at: usize, room: &mut [i32])
    requires { at + length codes.now ≤ length room.old }
    ensures { room.new ≡ sets room.old at (code_words codes.now) }
{
    for (j, b) in codes.iter().enumerate() {
        room[at + j] = word(*b);
    }
}

// The codes of these four are the fields of a gate's variant, and only here apart.
#[tactic(auto, using(crate::proofs::GateWords::code_steps), unfolding(product::specs::Column::parity))]
fn write_parity_of_two(p: u32, q: u32, z: u32, room: &mut [i32])
    requires { 16 ≤ length room.old }
    ensures { room.new ≡ sets room.old 0 (words (gate_clauses (Gate.ParityOfTwo p q z))) }
{
    let np = negated(p);
    let nq = negated(q);
    let nz = negated(z);
    store(
        &[p, q, nz, 0, p, nq, z, 0, np, q, z, 0, np, nq, nz, 0],
        0,
        room,
    );
}

#[tactic(auto, using(crate::proofs::GateWords::code_steps), unfolding(product::specs::Column::parity))]
fn write_parity_of_three(p: u32, q: u32, r: u32, z: u32, room: &mut [i32])
    requires { 40 ≤ length room.old }
    ensures { room.new ≡ sets room.old 0 (words (gate_clauses (Gate.ParityOfThree p q r z))) }
{
    let np = negated(p);
    let nq = negated(q);
    let nr = negated(r);
    let nz = negated(z);
    store(&[p, q, r, nz, 0, p, q, nr, z, 0], 0, room);
    store(&[p, nq, r, z, 0, p, nq, nr, nz, 0], 10, room);
    store(&[np, q, r, z, 0, np, q, nr, nz, 0], 20, room);
    store(&[np, nq, r, nz, 0, np, nq, nr, z, 0], 30, room);
}

#[tactic(auto, using(crate::proofs::GateWords::code_steps), unfolding(product::specs::Column::both))]
fn write_both(p: u32, q: u32, t: u32, room: &mut [i32])
    requires { 10 ≤ length room.old }
    ensures { room.new ≡ sets room.old 0 (words (gate_clauses (Gate.Both p q t))) }
{
    let np = negated(p);
    let nq = negated(q);
    let nt = negated(t);
    store(&[p, nt, 0, q, nt, 0, np, nq, t, 0], 0, room);
}

#[tactic(auto, using(crate::proofs::GateWords::code_steps), unfolding(product::specs::Column::most))]
fn write_most(p: u32, q: u32, r: u32, t: u32, room: &mut [i32])
    requires { 24 ≤ length room.old }
    ensures { room.new ≡ sets room.old 0 (words (gate_clauses (Gate.Most p q r t))) }
{
    let np = negated(p);
    let nq = negated(q);
    let nr = negated(r);
    let nt = negated(t);
    store(&[p, q, nt, 0, p, r, nt, 0, q, r, nt, 0], 0, room);
    store(&[np, nq, t, 0, np, nr, t, 0, nq, nr, t, 0], 12, room);
}

#[tactic(auto, unfolding(product::specs::Column::parity, product::specs::Column::both, product::specs::Column::most))]
fn write_gate(g: Gate, room: &mut [i32])
    requires { length (words (gate_clauses g)) ≤ length room.old }
    ensures { room.new ≡ sets room.old 0 (words (gate_clauses g)) }
{
    match g {
        Gate::Empty => {}
        Gate::ParityOfTwo(p, q, z) => write_parity_of_two(p, q, z, room),
        Gate::ParityOfThree(p, q, r, z) => write_parity_of_three(p, q, r, z, room),
        Gate::Both(p, q, t) => write_both(p, q, t, room),
        Gate::Most(p, q, r, t) => write_most(p, q, r, t, room),
    }
}

// ---- a column

// The words of one gate, and behind them those of another.
#[tactic(auto, using(crate::proofs::GateWords::gate_steps), unfolding(crate::specs::Gate::taken, crate::specs::Gate::column_clauses))]
fn write_gates(first: Gate, second: Gate, room: &mut [i32])
    requires { length (words (gate_clauses first)) + length (words (gate_clauses second)) ≤ length room.old }
    ensures { room.new ≡ sets room.old 0 (words (column_clauses first second)) }
{
    write_gate(first, room);
    let n = gate_taken(first).words;
    write_gate(second, &mut room[n..]);
}

#[tactic(auto, using(crate::proofs::GateWords::gate_taken_few, crate::proofs::GateWords::column_taken_is))]
fn column_taken(parity: Gate, majority: Gate) -> Taken
    ensures { result ≡ taken (column_clauses parity majority) }
{
    let s = gate_taken(parity);
    let m = gate_taken(majority);
    Taken {
        words: s.words + m.words,
        clauses: s.clauses + m.clauses,
    }
}

// Writes a column's gates, the sum's and the carry's, into the rest of the clause room, if they fit there. Answers what they take.
#[tactic(auto, using(crate::proofs::GateWords::column_steps), unfolding(crate::specs::Gate::taken))]
pub fn write_column(parity: Gate, majority: Gate, rest: &mut [i32]) -> Taken
    ensures value { result ≡ taken (column_clauses parity majority) }
    ensures rest_after { rest.new ≡ after (column_clauses parity majority) rest.old }
{
    let all = column_taken(parity, majority);
    if all.words <= rest.len() {
        write_gates(parity, majority, rest);
    }
    all
}
