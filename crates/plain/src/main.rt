// The page of one schedule the plain way (request 108): its bytes on standard input, on standard output what `endings` prints, so that `cmp` of the two is the
// check, and on standard error how far it is. The endings come from runs with write-backs added; the page's table of contents is not looked at.
// Larger schedules are refused by 15, as are pages that `endings` refuses.

#![tactic(auto)]

mod running;
mod showing;

use answer::told_of;
use plainway::way::way_of;
use running::run_all;
use showing::{show_first, show_images};

// Whether standard output took the page, or the line of its refusal.
fn print_plain(rt: &(impl Print + Eprint), s: &[u8], b: &mut [u8]) -> bool {
    match way_of(s, b.len()) {
        Ok(w) => {
            let count = run_all(rt, s, w, b);
            show_first(rt, s, count);
            show_images(rt, b, w.size, count)
        }
        Err(e) => {
            let told = told_of(Err(e));
            println!(rt; "refused {} at {}", told.number, told.place).is_ok()
        }
    }
}

fn main(rt: HostRuntime) {
    // The longest schedule has 25,430 bytes: what is longer than this is refused as its first part is.
    let mut s = [0u8; 32768];
    let Ok(bytes) = stream::fill(&mut rt.stdin(), &mut s) else {
        let _ = eprintln!(rt;
            "plain: standard input could not be read to its end, no page is printed"
        );
        return;
    };
    // Twelve events give at most 972 images of 51 bytes, or 576 of 66: all of them fit.
    let mut b = [0u8; 65536];
    if !print_plain(&rt, &s[..bytes], &mut b) {
        let _ = eprintln!(rt; "plain: standard output took no more, the page is not whole");
    }
}
