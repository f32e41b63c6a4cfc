// All runs, a stretch at a time: standard error tells how far it is.
ghost use Rattle.plainway.specs.Noting.{Laid, NotedTo};

use plainway::noting::note_some;
use plainway::way::Way;

fn tell(rt: &impl Eprint, done: u32, runs: u32) {
    let _ = eprintln!(rt; "plain: {done} of {runs} runs");
}

// How many images there are; they stand in the buffer's front.
pub(crate) fn run_all(rt: &impl Eprint, s: &[u8], w: Way, b: &mut [u8]) -> u32
    requires { Laid s.now w × NotedTo s.now 0 b.old 0 }
{
    let mut k = 0;
    let mut c = 0;
    while k < w.runs {
        // A stretch of 262,144 runs, or what is left.
        let to = k + (w.runs - k).min(262144);
        c = note_some(s, w, k, to, b, c);
        k = to;
        tell(rt, k, w.runs);
    }
    c
}
