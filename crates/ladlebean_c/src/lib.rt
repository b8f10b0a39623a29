// The archive for C: each entry point is a call of crates/ladlebean, with its clauses. A slice passes as a pointer and a length; each field
// of an answer has a pointer to one number, and the refusal's number is the result.

#![tactic(auto)]

ghost use Rattle.line.specs.Refusal.{told_of};
ghost use Rattle.plan.specs.Plan.{planned};
ghost use Rattle.recipe.specs.Check.{checked};
ghost use Rattle.product.specs.Write.{written, plain_written};
ghost use Rattle.propagate.specs.Pass.{propagated};
ghost use Rattle.ladlebean.specs.Archive.{ToldApart, PlanApart, Apart, PassApart};

// Whether a recipe is right for c: 0, or the refusal's number, with the bad line and the value that it gives.
#[unsafe(no_mangle)]
pub extern "C" fn ladlebean_check(c: u64, recipe: &[u8], line: &mut u64, value: &mut i64) -> u64
    ensures { ToldApart (told_of (checked c recipe.now)) result line.new value.new }
{
    ladlebean::ladlebean_check(c, recipe, line, value)
}

// Plans a recipe for c: 0, or the refusal's number, with the number of lines.
#[unsafe(no_mangle)]
pub extern "C" fn ladlebean_plan(c: u64, work: &mut [u8], recipe: &mut [u8], lines: &mut u64) -> u64
    ensures { PlanApart (planned c work.old recipe.old) result work.new recipe.new
        lines.new }
{
    ladlebean::ladlebean_plan(c, work, recipe, lines)
}

// Writes the clauses of a recipe for c at width w, where x is w literals and first the first free number: 0, or the refusal's number,
// with the words used, the clauses, the next free number, the bits of y, the bad line and the value that it gives.
#[unsafe(no_mangle)]
pub extern "C" fn ladlebean_write(
    c: u64,
    w: u32,
    x: &[i32],
    first: u32,
    recipe: &[u8],
    bits: &mut [i32],
    clauses: &mut [i32],
    words: &mut u64,
    count: &mut u64,
    next: &mut u64,
    size: &mut u64,
    line: &mut u64,
    value: &mut i64,
) -> u64
    ensures { Apart (written c w x.now first recipe.now bits.old clauses.old) result
        bits.new clauses.new words.new count.new next.new size.new
        line.new value.new }
{
    ladlebean::ladlebean_write(
        c, w, x, first, recipe, bits, clauses, words, count, next, size, line, value,
    )
}

// The same for document 01's call, where x is the variables 1 to w.
#[unsafe(no_mangle)]
pub extern "C" fn ladlebean_write_plain(
    c: u64,
    w: u32,
    recipe: &[u8],
    bits: &mut [i32],
    clauses: &mut [i32],
    words: &mut u64,
    count: &mut u64,
    next: &mut u64,
    size: &mut u64,
    line: &mut u64,
    value: &mut i64,
) -> u64
    ensures { Apart (plain_written c w recipe.now bits.old clauses.old) result
        bits.new clauses.new words.new count.new next.new size.new
        line.new value.new }
{
    ladlebean::ladlebean_write_plain(
        c, w, recipe, bits, clauses, words, count, next, size, line, value,
    )
}

// One pass over words that believes only the clauses: 0, or the refusal's number; `clauses` is the number of clauses read.
#[unsafe(no_mangle)]
pub extern "C" fn ladlebean_propagate(
    words: &[i32],
    given: &[i32],
    allowance: u64,
    values: &mut [u8],
    clauses: &mut u64,
) -> u64
    ensures { PassApart (propagated words.now given.now allowance values.old) result
        values.new clauses.new }
{
    ladlebean::ladlebean_propagate(words, given, allowance, values, clauses)
}
