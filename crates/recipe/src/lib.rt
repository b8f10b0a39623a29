// Which recipes are right: the check of a recipe that anyone proposed.

#![tactic(auto)]

ghost use Rattle.std.specs.Prelude.{◌≡◌, ℕ, ◌/◌, ◌<◌, ◌≤◌, ◌^◌, length, get_or};
ghost use Rattle.line.specs.Limits.{line_bytes, most_lines};
ghost use Rattle.recipe.specs.Check.{line_at, judged, form_judged, product_at, recipe_judged, checked};

use line::{Line, Refusal};

// What the rules say of line i + 1, given the coefficients of the operands before it.
#[tactic(auto, unfolding(crate::specs::Check::judged))]
fn judge(line: Line, i: usize, seen: &[u64; Line::MOST_LINES + 1]) -> Result<(), Refusal>
    requires i_lt_most_lines { i < most_lines }
    requires kind_bound { (line.kind < 2 ^ 2) × (line.shift < 2 ^ 5) × (line.coefficient < 2 ^ 20) }
    requires by_index { (j : ℕ) → j ≤ i → get_or seen.now j 0 < 2 ^ 20 }
    ensures { result ≡ judged line i (get_or seen.now line.left 0) (get_or seen.now line.right 0) }
{
    let number = i + 1;
    if line.top > 0 || line.kind == 0 {
        return Err(Refusal::Form(number));
    }
    if line.left > i || line.right > i {
        return Err(Refusal::Operand(number));
    }
    if line.coefficient % 2 == 0 {
        return Err(Refusal::Even(number));
    }
    // u64 has no From to i64.
    let claimed = line.coefficient as i64;
    let given = line.gives(seen[line.left], seen[line.right]);
    if claimed == given {
        Ok(())
    } else {
        Err(Refusal::Value(number, given))
    }
}

fn line_at(recipe: &[u8], i: usize) -> Line
    requires { i < length recipe.now / line_bytes }
    ensures { result ≡ line_at recipe.now i }
{
    let a = i * Line::BYTES;
    let e = a + Line::BYTES;
    Line::read(&recipe[a..e])
}

// Rules 3 to 7.
fn judge_lines(recipe: &[u8]) -> Result<(), Refusal>
    ensures { result ≡ form_judged recipe.now }
{
    let length = recipe.len();
    if length % Line::BYTES != 0 {
        return Err(Refusal::Length);
    }
    if length > Line::BYTES * Line::MOST_LINES {
        return Err(Refusal::Length);
    }
    let n = length / Line::BYTES;
    let mut seen = [0u64; Line::MOST_LINES + 1];
    seen[0] = 1;
    // A loop that yields its answer by break, and counts its line for that: document 01's form at this place.
    let mut i: usize = 0;
    let answer = loop {
        if i == n {
            break Ok(());
        }
        let line = line_at(recipe, i);
        if let Err(x) = judge(line, i, &seen) {
            break Err(x);
        }
        i += 1;
        seen[i] = line.coefficient;
    };
    answer
}

// The coefficient of the last line, or 1 where there is no line.
fn product_at(recipe: &[u8]) -> u64
    ensures { result ≡ product_at recipe.now }
{
    let n = recipe.len() / Line::BYTES;
    if n == 0 {
        return 1;
    }
    line_at(recipe, n - 1).coefficient
}

// Rules 3 to 8, for a recipe whose product is to be d.
#[tactic(auto, unfolding(crate::specs::Check::recipe_judged))]
pub fn check_lines(d: u64, recipe: &[u8]) -> Result<(), Refusal>
    ensures { result ≡ recipe_judged d recipe.now }
{
    judge_lines(recipe)?;
    if product_at(recipe) == d {
        Ok(())
    } else {
        Err(Refusal::Product)
    }
}

// Whether a recipe is right for c, and what is wrong with it if not.
#[tactic(auto, unfolding(crate::specs::Check::checked))]
pub fn check(c: u64, recipe: &[u8]) -> Result<(), Refusal>
    ensures { result ≡ checked c recipe.now }
{
    if line::out_of_range(c) {
        return Err(Refusal::Constant);
    }
    check_lines(line::odd_part(c), recipe)
}
