// Why a node is changed, read off the bytes as they came.
ghost use Rattle.std.specs.Prelude.{◌≡◌, ◌<◌};
ghost use Rattle.image.specs.Layout.{image_in};
ghost use Rattle.mending.specs.Mended.{larger_at, largest_at, spare_of, reason_at, changed};
ghost use Rattle.mending.specs.Reasons.{number_of, why_number};

use codec::sound::Lying;
use image::nodes::{Nodes, dummy, first_twin, has_twin};

// Why a node is changed: its linked byte is above 1 (6), a lower-numbered node is recovered with its index (7),
// or every node is recovered and its index is the largest (8).
#[derive(Clone, Copy, Debug, PartialEq, Eq)]
pub enum Reason {
    Unclear,
    Twin,
    Spare,
}

impl From<Reason> for u8 {
    ghost from_gives = { λ r n. n ≡ number_of r };

    fn from(r: Reason) -> u8 {
        match r {
            Reason::Unclear => 6,
            Reason::Twin => 7,
            Reason::Spare => 8,
        }
    }
}

// Of nodes r and k the one with the larger index, r where the two are equal.
fn larger_at(w: &Lying<'_>, r: usize, k: usize) -> usize
    requires { (r < (image_in w.now.bytes.now).n) × (k < (image_in w.now.bytes.now).n) }
    ensures { result ≡ larger_at (image_in w.now.bytes.now) r k }
{
    let x = w.index(r);
    let y = w.index(k);
    if x < y {
        return k;
    }
    r
}

// The node with the largest index.
fn largest_at(w: &Lying<'_>) -> usize
    ensures { result ≡ largest_at (image_in w.now.bytes.now) (image_in w.now.bytes.now).n }
{
    let n = w.count() as usize;
    let mut r = 0;
    for k in 0..n {
        r = larger_at(w, r, k);
    }
    r
}

// The node cleared for 8, and N where there is none.
pub fn spare_at(w: &Lying<'_>) -> usize
    ensures { result ≡ spare_of (image_in w.now.bytes.now) }
{
    let n = w.count() as usize;
    let h = w.head();
    if first_twin(w, h) != n || dummy(w, h) != n {
        return n;
    }
    largest_at(w)
}

// An image that lies in bytes, and the node of it that is cleared for 8: N where there is none.
#[derive(Clone, Copy)]
pub struct Damaged<'a> {
    pub lying: Lying<'a>,
    pub spare: usize,
    pub ghost chosen: { spare ≡ spare_of (image_in lying.bytes.now) },
}

impl<'a> Damaged<'a> {
    // Why node i is changed.
    pub fn reason(&self, i: usize) -> Option<Reason>
        requires { i < (image_in self.now.lying.bytes.now).n }
        ensures { why_number result ≡ reason_at (image_in self.now.lying.bytes.now) i }
    {
        if self.lying.linked(i) > 1 {
            return Some(Reason::Unclear);
        }
        let h = self.lying.head();
        if has_twin(&self.lying, i, h) {
            return Some(Reason::Twin);
        }
        if i == self.spare {
            return Some(Reason::Spare);
        }
        None
    }

    // How many nodes are changed.
    pub fn changed(&self) -> usize
        ensures { result ≡ changed (image_in self.now.lying.bytes.now) (image_in self.now.lying.bytes.now).n }
    {
        let n = self.lying.count() as usize;
        let mut count = 0;
        for i in 0..n {
            if self.reason(i).is_none() {
                continue;
            }
            count += 1;
        }
        count
    }
}
