// Writing: the clauses of an accepted recipe, word by word.

#![tactic(auto)]

mod column;
mod lines;

ghost use Rattle.std.specs.Prelude.{◌≡◌, false, ◌+◌, ◌≤◌, ◌<◌, length, drop};
ghost use Rattle.std.proofs.lemmas.List.Edits.{sets};
ghost use Rattle.line.specs.Limits.{most_width, most_next};
ghost use Rattle.line.specs.Order.{first_broken};
ghost use Rattle.gates.specs.Code.{code_of_word};
ghost use Rattle.product.specs.Product.{product_made, lines_from};
ghost use Rattle.product.specs.Bit.{given, numbered};
ghost use Rattle.cnf.specs.Words.{named, names};
ghost use Rattle.product.specs.Write.{unfit, not_literals, input_tests, need_tests, writing, product_written, written, plain_written};
ghost use Rattle.write.specs.Terms.{listed, given_code, plain_literal, unfit_at, y_entry};
ghost use Rattle.write.specs.Sizes.{most_columns};
ghost use Rattle.write.specs.Rooms.{Writable, CountsAre, PassIs};

use crate::lines::{MOST_COLUMNS, Place, largest, operand, write_lines};
use cnf::named;
use gates::word;
use line::{Line, Refusal};
use product::Counts;

// ---- y

#[tactic(auto, unfolding(crate::specs::Terms::y_entry))]
fn y_entry(bits: &[u32], t: usize, j: usize) -> i32
    requires { j < t + length bits.now }
    ensures { result ≡ y_entry bits.now t j }
{
    if j < t { 0 } else { word(bits[j - t]) }
}

// This loop, and those of `codes`, `literals` and `lines::term`, have one line each: a function with a closure would be as long a call.
#[tactic(auto, using(crate::proofs::Tables::table_steps))]
fn store_y(bits: &[u32], t: usize, size: usize, out: &mut [i32])
    requires { (size ≤ t + length bits.now) × (size ≤ length out.old) }
    ensures { out.new ≡ sets out.old 0 (listed (y_entry bits.now t) size) }
{
    for j in 0..size {
        out[j] = y_entry(bits, t, j);
    }
}

// The entries of y, if they fit.
fn write_y(bits: &[u32], t: usize, size: usize, out: &mut [i32])
    requires { size ≤ t + length bits.now }
    ensures { size ≤ length out.old → out.new ≡ sets out.old 0 (listed (y_entry bits.now t) size) }
{
    if size <= out.len() {
        store_y(bits, t, size, out);
    }
}

// ---- the passes

// The code of a literal; the least i32, which names 2^31, has none. Where a number is cast by `as` here, as to a narrower type or between
// usize and another, From has no such case, and the cast is proved to keep the number.
fn code(l: i32) -> u32
    requires { named l < most_next }
    ensures { result ≡ code_of_word l }
{
    let v = named(l) as u32;
    if l < 0 { 2 * v + 1 } else { 2 * v }
}

// The codes of given literals.
#[tactic(auto, using(crate::proofs::Tables::table_steps, crate::proofs::Inputs::named_fits))]
fn codes(first: u32, x: &[i32], out: &mut [u32])
    requires { (unfit first x.now ≡ false) × (first ≤ most_next) × (length x.now ≤ length out.old) }
    ensures { out.new ≡ sets out.old 0 (listed (given_code x.now) (length x.now)) }
{
    for (j, l) in x.iter().enumerate() {
        out[j] = code(*l);
    }
}

// The variables 1 to w as literals.
#[tactic(auto, using(crate::proofs::Tables::table_steps))]
fn literals(w: usize, out: &mut [i32])
    requires { (w ≤ most_width) × (w ≤ length out.old) }
    ensures { out.new ≡ sets out.old 0 (listed plain_literal w) }
{
    for j in 0..w {
        out[j] = (j + 1) as i32;
    }
}

// A call behind its check: a recipe of n lines, x's literals, the first free variable, and y's low zeros and length. Here and in
// `write_lines` n is counted once from the recipe's length, since the clauses speak of it.
#[derive(Clone, Copy)]
struct Call<'a> {
    recipe: &'a [u8],
    n: usize,
    x: &'a [i32],
    first: u32,
    t: usize,
    size: usize,
    ghost lines: { Writable (length x.now) recipe.now n },
    ghost width: { length x.now ≤ most_width },
    ghost fit: { unfit first x.now ≡ false },
    ghost first_pos: { 0 < first },
    ghost few_bits: { size ≤ t + most_columns },
}

impl Call<'_> {
    // One pass over the lines. It writes what fits and answers what is needed.
    #[tactic(auto, using(crate::proofs::Tables::length_operand))]
    fn pass(self, bits: &mut [i32], clauses: &mut [i32]) -> Place
        requires { (self.first ≤ most_next)
            × ((product_made self.t (lines_from self.recipe.now 0 self.n) (given self.x.now) self.first).next ≤ most_next) }
        ensures { let c = self.entry in
            PassIs (product_made c.t (lines_from c.recipe.now 0 c.n) (given c.x.now) c.first) c.first c.size result
            bits.old bits.new clauses.old clauses.new }
    {
        let mut scratch = [0u32; MOST_COLUMNS * (Line::MOST_LINES + 1)];
        codes(self.first, self.x, &mut scratch);
        let r = write_lines(
            self.recipe,
            self.n,
            self.x.len(),
            self.first,
            &mut scratch,
            clauses,
        );
        write_y(operand(&scratch, self.n), self.t, self.size, bits);
        r
    }

    // What the lines need, whatever the names: x is the variables 1 to w, and nothing is written.
    fn counted(self) -> Place
        ensures { let c = self.entry in
            let w = length c.x.now in
            CountsAre (product_made 0 (lines_from c.recipe.now 0 c.n) (given (numbered 1 w)) (w + 1)) (w + 1) result }
    {
        let w = self.x.len();
        let mut x = [0i32; Line::MOST_WIDTH as usize];
        literals(w, &mut x);
        let call = Call {
            recipe: self.recipe,
            n: self.n,
            x: &x[..w],
            first: w as u32 + 1,
            t: 0,
            size: 0,
        };
        call.pass(&mut [], &mut [])
    }
}

// ---- behind the check

// Rules 15, 9 and 10 by what is needed.
fn test_needs(
    next: u64,
    size: usize,
    words: usize,
    bits: usize,
    clauses: usize,
) -> Result<(), Refusal>
    ensures { result ≡ first_broken (need_tests next size words bits clauses) }
{
    if Line::MOST_NEXT < next {
        return Err(Refusal::Variables);
    }
    if bits < size {
        return Err(Refusal::BitRoom);
    }
    if clauses < words {
        return Err(Refusal::ClauseRoom);
    }
    Ok(())
}

// The lines are counted first, with the least numbers; then the pass that writes, with the real ones. The two rooms stay two parameters, as
// the public calls, which keep their signatures, have them.
fn write_product(call: Call, bits: &mut [i32], clauses: &mut [i32]) -> Result<Counts, Refusal>
    requires { call.size ≡ length (product_made call.t (lines_from call.recipe.now 0 call.n) (given call.x.now) call.first).y }
    ensures { let c = call.entry in
        writing result bits.new clauses.new
        ≡ product_written (product_made c.t (lines_from c.recipe.now 0 c.n) (given c.x.now) c.first) c.size bits.old clauses.old }
{
    let need = call.counted();
    let next = u64::from(call.first) + u64::from(need.next) - (call.x.len() as u64 + 1);
    test_needs(next, call.size, need.words, bits.len(), clauses.len())?;
    let done = call.pass(bits, clauses);
    Ok(Counts {
        words: done.words,
        clauses: done.clauses,
        next: done.next,
        bits: call.size,
    })
}

// ---- literals for x

// Whether one of some literals names variable v. A `for`: `any` was tried, and its answer over `named` was not proved.
#[tactic(auto, using(crate::proofs::Inputs::names_steps))]
fn names(v: u64, x: &[i32]) -> bool
    ensures { result ≡ names v x.now }
{
    for l in x {
        if named(*l) == v {
            return true;
        }
    }
    false
}

// Whether literal i is 0, or its variable isn't below first, or a later literal names it. x and first stay two here: no fact joins them but
// this, and the public calls have them apart.
#[tactic(auto, unfolding(crate::specs::Terms::unfit_at))]
fn unfit_at(first: u32, x: &[i32], i: usize) -> bool
    requires { i < length x.now }
    ensures { result ≡ unfit_at first x.now i }
{
    let v = named(x[i]);
    v == 0 || u64::from(first) <= v || names(v, &x[i + 1..])
}

#[tactic(auto, using(crate::proofs::Inputs::unfit_steps))]
fn unfit(first: u32, x: &[i32]) -> bool
    ensures { result ≡ unfit first x.now }
{
    for i in 0..x.len() {
        if unfit_at(first, x, i) {
            return true;
        }
    }
    false
}

// Rule 14: w literals, and each of them fit.
fn not_literals(w: u32, x: &[i32], first: u32) -> bool
    ensures { result ≡ not_literals w x.now first }
{
    x.len() != w as usize || unfit(first, x)
}

// ---- the calls

// Rules 1, 2, 14, and then 3 to 8 by the check.
fn test_inputs(c: u64, w: u32, x: &[i32], first: u32, recipe: &[u8]) -> Result<(), Refusal>
    ensures { result ≡ first_broken (input_tests c w x.now first recipe.now) }
{
    if line::out_of_range(c) {
        return Err(Refusal::Constant);
    }
    if line::not_a_width(w) {
        return Err(Refusal::Width);
    }
    if not_literals(w, x, first) {
        return Err(Refusal::Literals);
    }
    recipe::check_lines(line::odd_part(c), recipe)
}

// Writes the clauses of a recipe for c at width w: x is w literals, and first the first free number.
#[tactic(auto, using(crate::proofs::Calls::rooms_stay))]
pub fn write(
    c: u64,
    w: u32,
    x: &[i32],
    first: u32,
    recipe: &[u8],
    bits: &mut [i32],
    clauses: &mut [i32],
) -> Result<Counts, Refusal>
    ensures { writing result bits.new clauses.new
        ≡ written c w x.now first recipe.now bits.old clauses.old }
{
    test_inputs(c, w, x, first, recipe)?;
    let call = Call {
        recipe,
        n: recipe.len() / Line::BYTES,
        x,
        first,
        t: line::twos(c),
        size: line::bit_length(c * largest(w as usize)),
    };
    write_product(call, bits, clauses)
}

// Document 01's call: x is the variables 1 to w.
pub fn write_plain(
    c: u64,
    w: u32,
    recipe: &[u8],
    bits: &mut [i32],
    clauses: &mut [i32],
) -> Result<Counts, Refusal>
    ensures { writing result bits.new clauses.new
        ≡ plain_written c w recipe.now bits.old clauses.old }
{
    let k = (w as usize).min(Line::MOST_WIDTH as usize);
    let mut x = [0i32; Line::MOST_WIDTH as usize];
    literals(k, &mut x);
    write(c, w, &x[..k], k as u32 + 1, recipe, bits, clauses)
}
