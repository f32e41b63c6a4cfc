// The verdict on one history: its bytes on standard input; on standard output the verdict with its tries and the order that shows it, or the refusal's line.

#![tactic(auto)]

use answer::told_of;
use judging::judge_history;

// The verdict's line; the error is what was not done, and why.
fn judge(rt: &HostRuntime) -> Result<(), &'static str> {
    // The longest history has 859 bytes: what is longer than this is refused as its first part is.
    let mut h = [0; 1024];
    let got = stream::whole(&mut rt.stdin(), &mut h).ok_or(
        "standard input could not be read to its end, no verdict is printed",
    )?;
    let line = match judge_history(&h[..got]) {
        Ok(judgement) => println!(rt; "{judgement}"),
        Err(e) => {
            let told = told_of(Err(e));
            println!(rt; "refused {} at {}", told.number, told.place)
        }
    };
    line.map_err(|_| "standard output took no more, the line is not whole")
}

fn main(rt: HostRuntime) {
    if let Err(why) = judge(&rt) {
        let _ = eprintln!(rt; "judge: {why}");
    }
}
