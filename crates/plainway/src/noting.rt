// The image that each run leaves, noted in a lent buffer unless it is there.
ghost use Rattle.std.specs.Prelude.{◌≡◌, ◌+◌, ◌*◌, ◌<◌, ◌≤◌, length};
ghost use Rattle.lists.specs.Tab.{over};
ghost use Rattle.plainway.specs.Plainly.{all_bytes};
ghost use Rattle.plainway.specs.Noting.{same_at, is_noted, images_to, Laid, NotedTo};

use crate::way::Way;
use plainruns::playing::run_picked;
use plainruns::turns::turn_of;
use printing::put;

// Whether the first n bytes of x stand in b from a place on.
fn is_at(b: &[u8], at: usize, x: &[u8], n: usize) -> bool
    requires { (at + n ≤ length b.now) × (n ≤ length x.now) }
    ensures { result ≡ same_at b.now at x.now n }
{
    for i in 0..n {
        if b[at + i] != x[i] {
            return false;
        }
    }
    true
}

// Whether one of the first c pieces of n bytes is x.
fn is_noted(b: &[u8], c: usize, x: &[u8], n: usize) -> bool
    requires { (c * n ≤ length b.now) × (n ≤ length x.now) }
    ensures { result ≡ is_noted b.now c x.now n }
{
    for i in 0..c {
        if is_at(b, i * n, x, n) {
            return true;
        }
    }
    false
}

// Run k: its image is noted behind the c that are, unless it is one of them. How many there are then.
pub fn note(s: &[u8], w: Way, k: u32, b: &mut [u8], c: u32) -> u32
    requires { Laid s.now w × NotedTo s.now k b.old c × (k < w.runs) }
    ensures { NotedTo s.now (k + 1) b.new result × (b.new ≡ over b.old 0 (all_bytes (images_to s.now (k + 1)))) }
{
    let p = w.plan;
    let picks = turn_of(w.base, w.lines, w.runs, k);
    let m = run_picked(s, p, picks, w.lines);
    let g = events::kept_image(m);
    let mut x = [0u8; 846];
    codec::put_image(&mut x, g);
    if is_noted(&b[..], c as usize, &x, w.size) {
        return c;
    }
    put(b, c as usize * w.size, &x[..w.size]);
    c + 1
}

// The runs from number `from` on, up to `to`.
pub fn note_some(s: &[u8], w: Way, from: u32, to: u32, b: &mut [u8], c: u32) -> u32
    requires { Laid s.now w × NotedTo s.now from b.old c × (from ≤ to) × (to ≤ w.runs) }
    ensures { NotedTo s.now to b.new result × (b.new ≡ over b.old 0 (all_bytes (images_to s.now to))) }
{
    let mut n = c;
    for k in from..to {
        n = note(s, w, k, b, n);
    }
    n
}
