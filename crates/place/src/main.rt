//! Reads lines `ADDRESS/LENGTH TREAD SLOT HOP` from standard input, places each prefix in a small store and answers with
//! a line; at the end it lists what stands in the store. What is said and done is made by the library `placement`; this
//! only moves bytes.
#![tactic(auto)]

use layout::named::ListName;
use lines::line::without_end;
use memory::word::WordStore;
use placement::listing::listing;
use placement::placer::Placer;
use placement::text::AnswerText;
use std::io::{BufRead, BufReader};

fn main(rt: HostRuntime) -> anyhow::Result<()> {
    let heap = rt.alloc();
    let layout = ListName::V4Small.layout();
    // 256 buckets of 4 slots
    let mut words = [0u64; 1024];
    let mut placer = Placer::new(layout, WordStore::new(&mut words, 4));
    let mut input = BufReader::new(heap, rt.stdin())?;
    let mut line = Vec::new(heap);
    for _ in 0..u64::MAX {
        line.clear();
        if input.read_until(b'\n', &mut line)? == 0 {
            break;
        }
        rt.println(AnswerText(placer.answer(without_end(&line))))?;
    }
    rt.print(listing(heap, placer.store())?)?;
    Ok(())
}
