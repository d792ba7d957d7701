//! Reads the text of a tender on standard input and prints the tables of its periods and its offers, or the refusal.
#![tactic(auto)]

use std::io;
use std::io::{Read, Write};
use tender_text::{MOST_BYTES, report};

fn main(rt: HostRuntime) -> io::Result<()> {
    let heap = rt.alloc();
    let mut input = Vec::new(heap);
    // One byte past the limit is enough to tell that the text is too long.
    rt.stdin()
        .take(MOST_BYTES as u64 + 1)
        .read_to_end(&mut input)?;
    let answer = report(heap, input.as_slice())?;
    rt.stdout().write_all(answer.as_slice())
}
