//! Reads lines `LIST ADDRESS/LENGTH` from standard input, and writes for each where the prefix may stand, and why not
//! elsewhere. Everything that is said is made by the library `explanation`; this only moves bytes.
#![tactic(auto)]

use explanation::line::without_end;
use explanation::reply::reply;
use std::io::{BufRead, BufReader};

fn main(rt: HostRuntime) -> anyhow::Result<()> {
    let heap = rt.alloc();
    let mut input = BufReader::new(heap, rt.stdin())?;
    let mut line = Vec::new(heap);
    for _ in 0..u64::MAX {
        line.clear();
        if input.read_until(b'\n', &mut line)? == 0 {
            break;
        }
        rt.print(reply(heap, without_end(&line))?)?;
    }
    Ok(())
}
