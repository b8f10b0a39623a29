// From a request to the bytes that answer it: plan, write, print.
ghost use Rattle.std.specs.Prelude.{◌≡◌, ◌+◌, ◌*◌, length, Some};
ghost use Rattle.dimacs.specs.Puts.{Has, Puts};
ghost use Rattle.wording.specs.Print.{answered, file_room, printed};
ghost use Rattle.dimacs.specs.Steps.{WrittenFits, written_text, recipe_text, PlannedFits, planned_text};
ghost use Rattle.split.specs.Choose.{split_of};

use crate::put::Out;
use crate::read::read_request;
use line::{Line, Refusal};
use product::Counts;

// The rooms are long enough for every constant and width.

// 2^(L-1) splits.
const WORK_BYTES: usize = 1 << (Line::MOST_BITS - 1);

// L div 2 lines.
const RECIPE_BYTES: usize = Line::BYTES * (Line::MOST_BITS / 2);

// c * (2^w - 1) has at most L + w bits. (A constant calls no From.)
const BITS: usize = Line::MOST_BITS + Line::MOST_WIDTH as usize;

// That many columns in each line, and at most 64 words in a column.
const WORDS: usize = Line::MOST_BITS / 2 * BITS * 64;

// A long room is made by a call, so that the caller's proof sees its length and no entry.
fn room<T: Copy, const N: usize>(entry: T) -> [T; N]
    ensures { length result ≡ N }
{
    [entry; N]
}

// The constant and the width that are asked for.
#[derive(Clone, Copy)]
struct Product {
    c: u64,
    w: u32,
}

// Each of these asks that a file's room is left, and no invariant of `Out` says so: what is left falls with each byte that is put.
impl Product {
    fn put(self, out: &mut Out)
        requires { Has out.old file_room }
        ensures { Puts out.old out.new (answered split_of (Some (self.c, self.w))) }
    {
        let mut work = room::<u8, WORK_BYTES>(0);
        let mut recipe = [0; RECIPE_BYTES];
        let planned = plan::plan(self.c, &mut work, &mut recipe);
        self.put_planned(out, planned, &recipe);
    }

    #[tactic(auto, unfolding(crate::specs::Steps::planned_text))]
    fn put_planned(self, out: &mut Out, planned: Result<usize, Refusal>, recipe: &[u8])
        requires { (PlannedFits planned (length recipe.now)) × Has out.old file_room }
        ensures { Puts out.old out.new (planned_text planned self.c self.w recipe.now) }
    {
        match planned {
            Err(x) => out.refusal(x),
            Ok(n) => self.put_recipe(out, &recipe[..Line::BYTES * n]),
        }
    }

    fn put_recipe(self, out: &mut Out, recipe: &[u8])
        requires { Has out.old file_room }
        ensures { Puts out.old out.new (recipe_text self.c self.w recipe.now) }
    {
        let mut bits = [0; BITS];
        let mut words = room::<i32, WORDS>(0);
        let written = write::write_plain(self.c, self.w, recipe, &mut bits, &mut words);
        self.put_written(out, written, &bits, &words);
    }

    #[tactic(auto, unfolding(crate::specs::Steps::written_text))]
    fn put_written(
        self,
        out: &mut Out,
        written: Result<Counts, Refusal>,
        bits: &[i32],
        words: &[i32],
    )
        requires written_fits { WrittenFits written (length bits.now) (length words.now) }
        requires words_in_bounds { Has out.old (100 + 12 * (length bits.now + length words.now)) }
        ensures { Puts out.old out.new (written_text written self.c self.w bits.now words.now) }
    {
        match written {
            Err(x) => out.refusal(x),
            Ok(n) => out.file(
                self.c,
                u64::from(self.w),
                &bits[..n.bits],
                u64::from(n.next) - 1,
                // There is no From between usize and u64.
                n.clauses as u64,
                &words[..n.words],
            ),
        }
    }
}

#[tactic(auto, using(crate::proofs::Planning::printed_as))]
pub(crate) fn put_answer(out: &mut Out, input: &[u8])
    requires { Has out.old file_room }
    ensures { Puts out.old out.new (printed input.now) }
{
    let Some((c, w)) = read_request(input) else {
        return out.refusal(Refusal::Input);
    };
    let c = u64::from(c);
    Product { c, w }.put(out);
}
