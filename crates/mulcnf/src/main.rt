// The program: what `dimacs` answers to standard input goes to standard output.

#![tactic(auto)]

use records::read_full;
use std::io::{self, Write};

fn main(rt: HostRuntime) -> io::Result<()> {
    // The longest request has nine bytes, so a tenth says that there is too much.
    let mut input = [0; 10];
    let n = read_full(&mut rt.stdin(), &mut input)?;
    let mut out = [0; dimacs::ROOM];
    let Some(k) = dimacs::file(&input[..n], &mut out) else {
        return Ok(());
    };
    rt.stdout().write_all(&out[..k])
}
