// The whole reply to a line.
ghost use Rattle.std.specs.Prelude.{IfOk, string_bytes};
ghost use Rattle.explanation.specs.Replies.{ReplyTo, Explains};

use crate::query::{Query, read_query};
use std::alloc::{AllocError, Global};

// A line for the prefix and one for each of its places, or a line that says what is wrong.
pub fn reply(heap: Global, line: &[u8]) -> Result<String, AllocError>
    ensures { IfOk result (λ s. ReplyTo line.now (string_bytes s)) }
{
    match read_query(line) {
        Ok(query) => explain(heap, &query),
        Err(fault) => format!(in heap; "{fault}\n"),
    }
}

fn explain(heap: Global, query: &Query) -> Result<String, AllocError>
    ensures { IfOk result (λ s. Explains query.now (string_bytes s)) }
{
    let mut text = format!(in heap; "{query}\n")?;
    for place in query.places(heap)?.iter() {
        writeln!(text, "  {place}")?;
    }
    Ok(text)
}
