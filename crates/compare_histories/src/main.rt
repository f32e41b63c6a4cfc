// The verdict on each history of a stream, so that another program's verdicts can be compared with them.
// Standard input: a stream of items, each behind its length (4 bytes, little-endian). A line an item, as the program `judge` prints it.

#![tactic(auto)]

use compare::items::answer_all;
use compare::output::{Output, refused};
use judging::judge_history;
use std::io;
use std::io::Write;

fn answer_history(s: &[u8], out: &mut Output) -> io::Result<()> {
    match judge_history(s) {
        Ok(judgement) => writeln!(out, "{judgement}"),
        Err(e) => refused(out, e),
    }
}

fn main(rt: HostRuntime) {
    // Longer than any history; what is longer still is refused as its first part is.
    let mut item = [0u8; 1024];
    answer_all(
        &mut rt.stdin(),
        &mut item,
        Output::new(rt.stdout()),
        answer_history,
    );
}
