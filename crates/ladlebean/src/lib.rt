// The calls that the archive for C exports (crates/ladlebean_c): plan, check, write and one pass over words, over numbers and slices. Each
// field of an answer is left where a reference says, and the refusal's number is the result.

#![tactic(auto)]

ghost use Rattle.line.specs.Refusal.{told_of};
ghost use Rattle.plan.specs.Plan.{planned};
ghost use Rattle.recipe.specs.Check.{checked};
ghost use Rattle.product.specs.Write.{written, plain_written};
ghost use Rattle.propagate.specs.Pass.{propagated};
ghost use Rattle.ladlebean.specs.Archive.{ToldApart, PlanApart, Fields, Apart, PassApart};

use line::{Refusal, Told};
use product::Counts;

// Whether a recipe is right for c: 0, or the refusal's number, with the bad line and the value that it gives.
pub fn ladlebean_check(c: u64, recipe: &[u8], line: &mut u64, value: &mut i64) -> u64
    ensures { ToldApart (told_of (checked c recipe.now)) result line.new value.new }
{
    tell(line::told_of(&recipe::check(c, recipe)), line, value)
}

// Plans a recipe for c: 0, or the refusal's number, with the number of lines.
pub fn ladlebean_plan(c: u64, work: &mut [u8], recipe: &mut [u8], lines: &mut u64) -> u64
    ensures { PlanApart (planned c work.old recipe.old) result work.new recipe.new
        lines.new }
{
    let planned = plan::plan(c, work, recipe);
    // Here and below: usize has no From to u64.
    *lines = plan::lines_of(planned) as u64;
    line::number_of(&planned)
}

// Writes the clauses of a recipe for c at width w, where x is w literals and first the first free number: 0, or the refusal's number,
// with the words used, the clauses, the next free number, the bits of y, the bad line and the value that it gives.
pub fn ladlebean_write(
    c: u64,
    w: u32,
    x: &[i32],
    first: u32,
    recipe: &[u8],
    bits: &mut [i32],
    clauses: &mut [i32],
    words: &mut u64,
    count: &mut u64,
    next: &mut u64,
    size: &mut u64,
    line: &mut u64,
    value: &mut i64,
) -> u64
    ensures { Apart (written c w x.now first recipe.now bits.old clauses.old) result
        bits.new clauses.new words.new count.new next.new size.new
        line.new value.new }
{
    let written = write::write(c, w, x, first, recipe, bits, clauses);
    tell_written(written, words, count, next, size, line, value)
}

// The same for document 01's call, where x is the variables 1 to w.
pub fn ladlebean_write_plain(
    c: u64,
    w: u32,
    recipe: &[u8],
    bits: &mut [i32],
    clauses: &mut [i32],
    words: &mut u64,
    count: &mut u64,
    next: &mut u64,
    size: &mut u64,
    line: &mut u64,
    value: &mut i64,
) -> u64
    ensures { Apart (plain_written c w recipe.now bits.old clauses.old) result
        bits.new clauses.new words.new count.new next.new size.new
        line.new value.new }
{
    let written = write::write_plain(c, w, recipe, bits, clauses);
    tell_written(written, words, count, next, size, line, value)
}

// One pass over words that believes only the clauses: 0, or the refusal's number; `clauses` is the number of clauses read.
pub fn ladlebean_propagate(
    words: &[i32],
    given: &[i32],
    allowance: u64,
    values: &mut [u8],
    clauses: &mut u64,
) -> u64
    ensures { PassApart (propagated words.now given.now allowance values.old) result
        values.new clauses.new }
{
    let propagated = propagate::propagate(words, given, allowance, values);
    *clauses = propagate::clauses_of(propagated);
    line::number_of(&propagated)
}

// The number, with the line and the value apart.
fn tell(told: Told, line: &mut u64, value: &mut i64) -> u64
    ensures { ToldApart told result line.new value.new }
{
    *line = told.line as u64;
    *value = told.value;
    told.number
}

// The number of what was written, with its counts, the line and the value apart. Each is a reference of its own, since C has them so.
fn tell_written(
    written: Result<Counts, Refusal>,
    words: &mut u64,
    count: &mut u64,
    next: &mut u64,
    size: &mut u64,
    line: &mut u64,
    value: &mut i64,
) -> u64
    ensures { Fields written result words.new count.new next.new size.new line.new
        value.new }
{
    let counts = product::counts_of(written);
    *words = counts.words as u64;
    *count = counts.clauses as u64;
    *next = u64::from(counts.next);
    *size = counts.bits as u64;
    tell(line::told_of(&written), line, value)
}
