// Clauses and their meaning: definitions and laws, and the variable that a word names.

#![tactic(auto)]

ghost use Rattle.std.specs.Prelude.{◌≡◌, ◌≤◌, ◌^◌};
ghost use Rattle.cnf.specs.Words.{named};

// The variable that a literal names; the least i32 names 2^31.
pub fn named(l: i32) -> u64
    ensures { (result ≡ named l) × (result ≤ 2 ^ 31) }
{
    line::magnitude(i64::from(l))
}
