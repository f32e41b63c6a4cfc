// The calls on a machine record, for many inputs in one run, so that another program's answers can be compared with theirs.
// Standard input: one byte that names the mode, then a stream of items, each behind its length (4 bytes, little-endian).
//   t  a schedule:  after the start and after each event `REPLY VALUE SUM`, the sum of the record's bytes; up to `refused N at P`
//   u  the same, by the call on a kept record
//   r  a record and an event: `N P REPLY VALUE RECORD`
//   a  the same, by the call on a kept record
//   p  the same: `N P QUEUE FREE WAITING HELD ENQUEUE DEQUEUE`; the event does not count
//   k  the same: the record's persisted copies saved into a buffer, whose room the event's first two bytes give: `N P BUFFER`
//   b  contents and T: `refused N at P`, or `0 0 RECORD` after a start
//   e  contents that say the version they are for, with indices of 8 bytes, and T: the same
//   f  N and T: the same for a fresh machine, with the record's sum
//   v  N, T, a number and a count: that many events drawn from the number, on one record: `TAKEN ITEMS SUM`
//   w  the same, by the call on a kept record
//   l  an ending's number (4 bytes) and a schedule: `refused N at P`, or `list COUNT` and ` ITEM:GROUP` for each entry of the despatch desk's list
//   q  a probe file: `refused N at P`, `all agree`, or `event E recorded ANSWER ITEM given ANSWER ITEM` of the first that differs

#![tactic(auto)]

mod instants;
mod kept;
mod listing;
mod probes;
mod records;
mod soak;
mod starts;
mod traces;

use compare::items::{answer_all, mode_of};
use compare::output::Output;
use events::on_event;
use kept::kept_event;
use listing::answer_list;
use probes::answer_probe;
use records::{answer_places, answer_record, answer_saved};
use soak::answer_soak;
use starts::{answer_fresh, answer_start, answer_wide_start};
use std::io;
use traces::answer_trace;

fn main(rt: HostRuntime) {
    let mut input = rt.stdin();
    let answer: fn(&[u8], &mut Output) -> io::Result<()> = match mode_of(&mut input) {
        b't' => |s, out| answer_trace(s, out, |m, e| on_event(m, e)),
        b'u' => |s, out| answer_trace(s, out, kept_event),
        b'r' => |s, out| answer_record(s, out, |m, e| on_event(m, e)),
        b'a' => |s, out| answer_record(s, out, kept_event),
        b'p' => answer_places,
        b'k' => answer_saved,
        b'b' => answer_start,
        b'e' => answer_wide_start,
        b'f' => answer_fresh,
        b'v' => |s, out| answer_soak(s, out, |m, e| on_event(m, e)),
        b'w' => |s, out| answer_soak(s, out, kept_event),
        b'l' => answer_list,
        b'q' => answer_probe,
        // No mode: what stands behind it is read and not answered.
        _ => |_, _| Ok(()),
    };
    // Longer than any schedule or probe file; what is longer still is refused as its first part is.
    let mut item = [0u8; 65536];
    answer_all(&mut input, &mut item, Output::new(rt.stdout()), answer);
}
