// What is told on standard error. What it does not take is lost.
pub(crate) fn say(rt: &impl Eprint, words: &str) {
    let _ = eprint!(rt; "{words}");
}

// A line for each thousand schedules.
pub(crate) fn tell_done(rt: &impl Eprint, done: u64) {
    if done % 1000 == 0 {
        let _ = eprintln!(rt; "many: {done} schedules");
    }
}

// The last line.
pub(crate) fn tell_end(rt: &impl Eprint, done: u64, refused: u64) {
    let _ = eprintln!(rt; "many: {done} schedules, {refused} refused");
}
