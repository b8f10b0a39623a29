// One pass of unit propagation over words, with an allowance of clauses. It believes only the clauses.

#![tactic(auto)]

ghost use Rattle.std.specs.Prelude.{◌≡◌, ◌<◌, ◌≤◌, if◌then◌else◌, length};
ghost use Rattle.propagate.specs.Clause.{wanted, with_literal, reading_clause};
ghost use Rattle.propagate.specs.Pass.{propagating, turn_of, room_of, passed, given_rest, all_unknown, unknowns, propagated};
ghost use Rattle.propagate.specs.Pass.{clauses_read};
ghost use Rattle.line.specs.declared.Refusal.TheVariants.{Given};

use cnf::named;
use line::Refusal;

// What a room that holds all values so far says of a clause: all its literals are false; all but one unknown literal, which sets a
// variable to a value; or neither.
#[derive(Clone, Copy)]
pub enum Verdict {
    AllFalse,
    Sets { variable: usize, value: u8 },
    Passes,
}

// The verdict on the first clause of words, and how many words it has with its 0.
#[derive(Clone, Copy)]
pub struct Reading {
    pub verdict: Verdict,
    pub words: usize,
}

// The clauses read, zero in a refusal: std's `unwrap_or` under the documents' name, which a function for all three would not say shorter.
pub fn clauses_of(propagated: Result<u64, Refusal>) -> u64
    ensures { result ≡ clauses_read propagated }
{
    propagated.unwrap_or(0)
}

// ---- a word

// The value of its variable at which a word's literal is true. Values are bytes and no enum: C lends the room so.
fn wanted(w: i32) -> u8
    ensures { (result ≡ wanted w) × (result ≤ 1) }
{
    u8::from(w >= 0)
}

// ---- a clause

// The verdict with one literal more: of a variable whose value is given, true where that is the one wanted.
#[tactic(auto, unfolding(crate::specs::Clause::with_literal))]
fn with_literal(sofar: Verdict, variable: usize, wanted: u8, value: u8) -> Verdict
    ensures { result ≡ with_literal sofar variable wanted value }
{
    if value == wanted {
        return Verdict::Passes;
    }
    if value < 2 {
        return sofar;
    }
    match sofar {
        Verdict::AllFalse => Verdict::Sets {
            variable,
            value: wanted,
        },
        Verdict::Sets {
            variable: v,
            value: b,
        } if v == variable && b == wanted => sofar,
        _ => Verdict::Passes,
    }
}

// The first clause of words; none where they end inside it, or a variable is above the room. (u64 has no From to usize.)
#[tactic(auto, using(crate::proofs::Scan::word_by_word))]
fn read_clause(words: &[i32], values: &[u8]) -> Option<Reading>
    ensures { result ≡ reading_clause values.now words.now }
{
    let mut verdict = Verdict::AllFalse;
    for (i, w) in words.iter().enumerate() {
        let v = named(*w) as usize;
        if v == 0 {
            return Some(Reading {
                verdict,
                words: i + 1,
            });
        }
        let value = values.get(v - 1)?;
        verdict = with_literal(verdict, v, wanted(*w), *value);
    }
    None
}

// ---- the pass

// One clause: what it sets is set, and its words are counted. Words and values stay two: one is read, and the other is the caller's room.
#[tactic(auto, using(crate::proofs::Passing::sets_inside))]
fn step(words: &[i32], values: &mut [u8]) -> Result<usize, Refusal>
    ensures value { result ≡ turn_of (reading_clause values.old words.now) }
    ensures values_after { values.new ≡ room_of (reading_clause values.old words.now) values.old }
{
    let clause = read_clause(words, values).ok_or(Refusal::Words)?;
    match clause.verdict {
        Verdict::AllFalse => return Err(Refusal::Conflict),
        Verdict::Sets { variable, value } => values[variable - 1] = value,
        Verdict::Passes => {}
    }
    Ok(clause.words)
}

// The clauses once, in order; each costs one of the allowance. A `while` over what is left, since each clause says how many words it has.
#[tactic(auto, using(crate::proofs::Passing::clause_by_clause))]
fn pass(words: &[i32], allowance: u64, values: &mut [u8]) -> Result<u64, Refusal>
    ensures { propagating result values.new ≡ passed allowance 0 words.now values.old }
{
    let mut rest = words;
    let mut spent: u64 = 0;
    while !rest.is_empty() {
        if spent == allowance {
            return Err(Refusal::Allowance);
        }
        rest = &rest[step(rest, values)?..];
        spent += 1;
    }
    Ok(spent)
}

// ---- the call

// Whether every byte is 2.
#[tactic(auto, unfolding(crate::specs::Pass::all_unknown))]
fn all_unknown(values: &[u8]) -> bool
    ensures { result ≡ all_unknown values.now }
{
    values.iter().all(|b| *b == 2)
}

fn forget(values: &mut [u8])
    ensures { values.new ≡ unknowns (length values.old) }
{
    values.fill(2);
}

// Takes the literals as true, up to one that cannot be taken, which refuses them.
#[tactic(auto, using(crate::proofs::Giving::literal_by_literal))]
fn give(given: &[i32], values: &mut [u8]) -> Result<(), Refusal>
    ensures value { result ≡ (if (given_rest given.now values.old).held then Ok tt else Err Given) }
    ensures values_after { values.new ≡ (given_rest given.now values.old).room }
{
    for w in given {
        let v = named(*w) as usize;
        if v == 0 || v > values.len() || values[v - 1] < 2 {
            return Err(Refusal::Given);
        }
        values[v - 1] = wanted(*w);
    }
    Ok(())
}

// The words, the literals that hold, the allowance of clauses and the value room, one byte for each variable: 0 false, 1 true, 2 unknown.
#[tactic(auto, using(crate::proofs::Giving::unknown_room), unfolding(crate::specs::Pass::propagated))]
pub fn propagate(
    words: &[i32],
    given: &[i32],
    allowance: u64,
    values: &mut [u8],
) -> Result<u64, Refusal>
    ensures { propagating result values.new
        ≡ propagated words.now given.now allowance values.old }
{
    if !all_unknown(values) {
        return Err(Refusal::Given);
    }
    if let Err(x) = give(given, values) {
        forget(values);
        return Err(x);
    }
    let answer = pass(words, allowance, values);
    if answer.is_err() {
        forget(values);
    }
    answer
}
