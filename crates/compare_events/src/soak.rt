// A long run on one record. Each event is drawn from a number that follows from the last one; refused events count among the events.
use answer::told_of;
use compare::output::{Output, refused};
use compare::sums::Sum;
use machine::{Event, Machine, Out};
use record::{SIZE, write_record};
use std::io;
use std::io::Write;
use stream::{byte, word};

// The next number of a row of 31 bits.
fn next_number(x: u64) -> u64 {
    (x % 2147483648 * 1103515245 + 12345) % 2147483648
}

// Of 16 events one begins an enqueue, one a dequeue, one is a write-back, the others are steps; now and then one is a crash.
fn drawn(x: u64) -> Event {
    let thread = (x / 134217728 % 8) as u8;
    let line = (x / 16777216 % 64) as u8;
    let (kind, number, item) = match x / 1048576 % 16 {
        _ if x / 65536 % 4096 == 0 => (5, 0, 0),
        0 => (1, thread, (x % 4096) as u32),
        1 => (2, thread, 0),
        2 => (4, line, 0),
        _ => (3, thread, 0),
    };
    Event { kind, number, item }
}

// How many events were taken, the sum of what they answered, and that of the record in the end.
fn put_soaked<F: Fn(Machine, Event) -> Out>(
    out: &mut Output,
    start: Machine,
    first: u32,
    count: u32,
    by: F,
) -> io::Result<()>
    requires { F.IsAlwaysCallable by }
{
    let mut m = start;
    let mut x = u64::from(first);
    let mut taken = 0u64;
    let mut items = 0u64;
    for _ in 0..count {
        let happened = by(m, drawn(x));
        m = happened.machine;
        if happened.answer.is_ok() {
            taken = taken.wrapping_add(1);
            items = items.wrapping_add(u64::from(told_of(happened.answer).item));
        }
        x = next_number(x);
    }
    let mut bytes = [0u8; SIZE];
    let _ = write_record(m, &mut bytes);
    writeln!(out, "{taken} {items} {}", Sum::new().with(&bytes))
}

pub(crate) fn answer_soak<F: Fn(Machine, Event) -> Out>(
    s: &[u8],
    out: &mut Output,
    by: F,
) -> io::Result<()>
    requires { F.IsAlwaysCallable by }
{
    match Machine::fresh(byte(s, 0), byte(s, 1)) {
        Ok(m) => put_soaked(out, m, word(s, 2), word(s, 6), by),
        Err(e) => refused(out, e),
    }
}
