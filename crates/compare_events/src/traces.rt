// A schedule, moment by moment.
use crate::instants::put_moment_sum;
use answer::{Reply, told_of};
use compare::output::{Output, refused};
use machine::{Event, Machine, Out, start_from};
use schedule::Schedule;
use std::io;
use std::io::Write;

// The start and each event by the given call. The refusal of a run names the event's number, where that of a single event names 0.
fn put_run<F: Fn(Machine, Event) -> Out>(
    out: &mut Output,
    s: &[u8],
    d: Schedule,
    start: Machine,
    by: F,
) -> io::Result<()>
    requires { F.IsAlwaysCallable by }
{
    put_moment_sum(out, Reply::Taken, start)?;
    let mut m = start;
    for i in 0..d.count {
        let Ok(e) = codec::event_of(s, usize::from(i)) else {
            break;
        };
        let happened = by(m, e);
        match happened.answer {
            Ok(r) => put_moment_sum(out, r, happened.machine)?,
            Err(e) => return writeln!(out, "refused {} at {i}", told_of(Err(e)).number),
        }
        m = happened.machine;
    }
    Ok(())
}

pub(crate) fn answer_trace<F: Fn(Machine, Event) -> Out>(
    s: &[u8],
    out: &mut Output,
    by: F,
) -> io::Result<()>
    requires { F.IsAlwaysCallable by }
{
    let d = match codec::read_schedule(s) {
        Ok(d) => d,
        Err(e) => return refused(out, e),
    };
    match start_from(d.image, d.t) {
        Ok(m) => put_run(out, s, d, m, by),
        Err(e) => refused(out, e),
    }
}
