// The mended image by value, and the list of the changed nodes.
ghost use Rattle.std.specs.Prelude.{◌≡◌, not, ◌+◌, ◌≤◌, eqb, length};
ghost use Rattle.lists.specs.Tab.{over};
ghost use Rattle.image.specs.Layout.{image_in};
ghost use Rattle.mending.specs.Mended.{unlinked, mended, entry_of, changes};
ghost use Rattle.mending.specs.Reasons.{why_number};

use crate::reasons::{Damaged, Reason};
use image::nodes::Nodes;
use image::{Content, Image};

// A content with its linked flag cleared, where there is a reason.
fn mended_content(v: Content, why: Option<Reason>) -> Content
    ensures { result ≡ unlinked (not (eqb (why_number why) 0)) v }
{
    match why {
        Some(_) => Content { linked: 0, ..v },
        None => v,
    }
}

// A node's entry, where there is a reason. It gives the place behind it.
fn put_entry(l: &mut [u8], at: usize, i: u8, why: Option<Reason>) -> usize
    requires { at + length (entry_of i (why_number why)) ≤ length l.old }
    ensures next { result ≡ at + length (entry_of i (why_number why)) }
    ensures bytes { l.new ≡ over l.old at (entry_of i (why_number why)) }
{
    match why {
        None => at,
        Some(reason) => {
            l[at] = i;
            l[at + 1] = u8::from(reason);
            at + 2
        }
    }
}

impl<'a> Damaged<'a> {
    // The image with the linked flag of every node that has a reason cleared.
    pub fn mended(&self) -> Image
        ensures { result ≡ mended (image_in self.now.lying.bytes.now) }
    {
        let g = codec::image_in(self.lying.bytes);
        let mut nodes = g.nodes;
        let n = self.lying.count() as usize;
        for i in 0..n {
            let why = self.reason(i);
            nodes[i] = mended_content(g.nodes[i], why);
        }
        Image { nodes, ..g }
    }

    // The entries of all nodes, from the front of the list.
    pub fn put_changes(&self, l: &mut [u8])
        requires { length (changes (image_in self.now.lying.bytes.now) (image_in self.now.lying.bytes.now).n) ≤ length l.old }
        ensures { l.new ≡ over l.old 0 (changes (image_in self.now.lying.bytes.now) (image_in self.now.lying.bytes.now).n) }
    {
        let n = self.lying.count() as usize;
        let mut at = 0;
        for i in 0..n {
            let why = self.reason(i);
            at = put_entry(l, at, i as u8, why);
        }
    }
}
