// The calls on a schedule's endings, for many schedules in one run, so that another program's answers can be compared with theirs.
// Standard input: a stream of schedules, each behind its length (4 bytes, little-endian). Standard output, for each: `refused N at P`, or
//   endings COUNT
//   a line of hex for each ending, where COUNT is at most 32
//   sum SUM      the FNV-1a sum of all endings' bytes
//   refused ..   ending COUNT
//   refused ..   the last ending in a buffer that is one byte too short

#![tactic(auto)]

mod endings;
mod paged;

use compare::items::answer_all;
use compare::output::Output;
use endings::answer_schedule;

fn main(rt: HostRuntime) {
    // Longer than any schedule; what is longer still is refused as its first part is.
    let mut item = [0u8; 40000];
    answer_all(
        &mut rt.stdin(),
        &mut item,
        Output::new(rt.stdout()),
        answer_schedule,
    );
}
