// The despatch desk's list: a schedule's bytes on standard input, the ending's number as the argument; on standard output a line for each enqueue
// begun since the last start, in begin order, with what became of it; or the refusal's line.

#![tactic(auto)]

use answer::told_of;
use std::io;
use std::rt::Env;
use stream::{byte, half, word};

// The group in the request's words, by its number in the list.
fn group(number: u8) -> &'static str {
    match number {
        1 => "handed out",
        2 => "still queued",
        3 => "turned away",
        4 => "taken without an answer",
        _ => "never in",
    }
}

// A line for each entry of the list.
fn print_list(rt: &impl Print, list: &[u8]) -> io::Result<()> {
    for entry in list.chunks_exact(8) {
        let event = half(entry, 0);
        let thread = byte(entry, 2);
        let item = word(entry, 4);
        println!(rt;
            "event {event} thread {thread} item {item}: {}",
            group(byte(entry, 3))
        )?;
    }
    Ok(())
}

// The list, or the line of the refusal; the error is what was not done, and why.
fn despatch(rt: &HostRuntime) -> Result<(), &'static str> {
    let mut argument = [0; 8];
    // One that is longer than the buffer is no number, and so is a missing one.
    let n = rt.arg(1, &mut argument).unwrap_or(0);
    let k = stream::decimal(&argument[..n]).ok_or("the argument is the ending's number")?;
    // The longest schedule has 25,430 bytes: what is longer than this is refused as its first part is.
    let mut s = [0; 65536];
    let bytes = stream::fill(&mut rt.stdin(), &mut s).map_err(
        |_| "standard input could not be read to its end, no list is printed",
    )?;
    let mut b = [0; 32768];
    match parcels::despatch(&s[..bytes], u64::from(k), &mut b) {
        Ok(0) => {
            let _ = println!(rt; "nothing was enqueued since the last start");
            Ok(())
        }
        Ok(count) => print_list(rt, b.get(..usize::from(count) * 8).unwrap_or(&b)).map_err(
            |_| "standard output took no more, the list is not whole",
        ),
        Err(e) => {
            let told = told_of(Err(e));
            println!(rt; "refused {} at {}", told.number, told.place).map_err(
                |_| "standard output took no more, the line is not whole",
            )
        }
    }
}

fn main(rt: HostRuntime) {
    if let Err(why) = despatch(&rt) {
        let _ = eprintln!(rt; "despatch: {why}");
    }
}
