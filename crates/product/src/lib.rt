// The product of x and a constant as clauses: what writing answers.

#![tactic(auto)]

ghost use Rattle.std.specs.Prelude.{◌≡◌};
ghost use Rattle.product.specs.Write.{counts_of};

use line::Refusal;

// What a success counts.
#[derive(Clone, Copy, Debug, PartialEq, Eq)]
pub struct Counts {
    pub words: usize,
    pub clauses: usize,
    pub next: u32,
    pub bits: usize,
}

// Words used, clauses, the next free number and bits of y; all zero in a refusal: std's `unwrap_or` under the documents' name.
pub fn counts_of(written: Result<Counts, Refusal>) -> Counts
    ensures { result ≡ counts_of written }
{
    written.unwrap_or(Counts {
        words: 0,
        clauses: 0,
        next: 0,
        bits: 0,
    })
}
