// Writes recipes again and again, for bench/run to time: reads how often (2 bytes, most significant first), the call (an even byte for
// document 01's, an odd one for that over given literals) and records of c (4 bytes), the recipe's length and the recipe; writes each at
// width 16 so often, in rooms that are never too short, and prints the words of all, modulo 2^32, with one more for each time that the
// middle word ends a clause.

#![tactic(auto)]

ghost use Rattle.std.specs.Prelude.{◌<◌, length, IfSome};

use records::read_full;
use std::io;

const WIDTH: u32 = 16;

// Literals of a panel's own variables, and the first number behind them.
const PANEL: [i32; 16] = [
    40, -39, 38, -37, 36, -35, 34, -33, 32, -31, 30, -29, 28, -27, 26, -25,
];

const BEHIND_PANEL: u32 = 1000;

#[derive(Clone, Copy)]
struct Record<'a> {
    c: u32,
    recipe: &'a [u8],
}

// The record at the front, and the records behind it; none where it isn't whole.
fn first(records: &[u8]) -> Option<(Record<'_>, &[u8])>
    ensures { IfSome result (λ p. length p.1.now < length records.now) }
{
    let (front, rest) = records.split_first_chunk::<5>()?;
    let [c3, c2, c1, c0, n] = *front;
    let (recipe, behind) = rest.split_at_checked(usize::from(n))?;
    let c = u32::from_be_bytes([c3, c2, c1, c0]);
    Some((Record { c, recipe }, behind))
}

// Writes the recipe of a record; answers its words, and one more where the word in the middle ends a clause: the room is looked at, so that
// no compiler can leave the writing out.
fn words(x: Option<&[i32]>, record: Record<'_>, bits: &mut [i32], clauses: &mut [i32]) -> u32 {
    let c = u64::from(record.c);
    let done = match x {
        None => write::write_plain(c, WIDTH, record.recipe, bits, clauses),
        Some(x) => write::write(c, WIDTH, x, BEHIND_PANEL, record.recipe, bits, clauses),
    };
    // Between usize and u32 there is no From.
    let n = (product::counts_of(done).words % 4294967296) as u32;
    match clauses.get(n as usize / 2) {
        None => 0,
        Some(0) => n.wrapping_add(1),
        Some(_) => n,
    }
}

// Writes every record once; answers the words of all.
fn once(x: Option<&[i32]>, records: &[u8], bits: &mut [i32], clauses: &mut [i32]) -> u32 {
    let mut total: u32 = 0;
    let mut rest = records;
    while let Some((record, behind)) = first(rest) {
        total = total.wrapping_add(words(x, record, bits, clauses));
        rest = behind;
    }
    total
}

// Writes every record so often.
fn often(times: u16, x: Option<&[i32]>, records: &[u8]) -> u32 {
    let mut bits = [0; 32];
    let mut clauses = [0; 16384];
    let mut total: u32 = 0;
    for _ in 0..times {
        total = total.wrapping_add(once(x, records, &mut bits, &mut clauses));
    }
    total
}

fn main(rt: HostRuntime) -> io::Result<()> {
    let mut input = [0; 65536];
    let n = read_full(&mut rt.stdin(), &mut input)?;
    let Some((front, records)) = input[..n].split_first_chunk::<3>() else {
        return Ok(());
    };
    let [t1, t0, call] = *front;
    let x = if call % 2 == 0 {
        None
    } else {
        Some(&PANEL[..])
    };
    let total = often(u16::from_be_bytes([t1, t0]), x, records);
    println!(rt; "{total}")
}
