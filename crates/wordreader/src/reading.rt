// Words read: the schedule that they say, into a lent buffer.
ghost use Rattle.std.specs.Prelude.{◌≡◌, true, ◌≤◌, length};
ghost use Rattle.image.specs.Form.{known};
ghost use Rattle.spelling.specs.Layout.{events_start};
ghost use Rattle.spelling.specs.Lines.{acts_of};
ghost use Rattle.spelling.specs.Reading.{put_all};
ghost use Rattle.wordreader.specs.Turns.{put_next, reach_next};

use crate::putting::put_act;
use crate::saying::said_of;
use crate::surveying::next_line;
use crate::words::no_line;
use image::Shape;
use spelling::Line;

#[tactic(auto, unfolding(crate::specs::Turns::put_next, crate::specs::Turns::reach_next))]
fn next_put(b: &mut [u8], g: Shape, z: usize, p: usize, l: Line, x: u8) -> usize
    requires { (known g.form ≡ true) × (z ≤ length b.old) × (p ≤ z) × (z ≤ 500000) × (events_start g ≤ z) }
    ensures reach { result ≡ reach_next z p l x }
    ensures bytes { b.new ≡ put_next g z b.old p l x }
    ensures within { result ≤ z }
{
    if x == b'\n' {
        put_act(b, g, z, p, said_of(l))
    } else {
        p
    }
}

// What the lines of the text put into the first z bytes; gives up to where the events reach.
pub fn put_text(t: &[u8], b: &mut [u8], g: Shape, z: usize, from: usize) -> usize
    requires { (known g.form ≡ true) × (z ≤ length b.old) × (from ≤ z) × (z ≤ 500000) × (events_start g ≤ z) }
    ensures { b.new ≡ put_all g z b.old from (acts_of t.now) }
{
    let mut l = no_line();
    let mut p = from;
    for &x in t {
        p = next_put(b, g, z, p, l, x);
        l = next_line(l, x);
    }
    put_act(b, g, z, p, said_of(l))
}
