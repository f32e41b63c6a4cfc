// The tests of an image where its bytes lie: unclear linked bytes (6), twins (7), the dummy (8). Nothing is copied.
// Where a node's bytes are is known to `Lying` alone.
ghost use Rattle.std.specs.Prelude.{◌≡◌};
ghost use Rattle.answer.specs.Answers.{Taken};
ghost use Rattle.image.specs.Layout.{image_in};
ghost use Rattle.image.specs.Refusals.{sound};
ghost use Rattle.codec.specs.Parts.{Lies};

use crate::bytes::index_in;
use crate::lines::heads_in;
use answer::Answer;
use image::nodes::{Nodes, sound};
use image::{Shape, head_of, place_of};

// An image that lies in bytes, with its shape.
#[derive(Clone, Copy)]
pub struct Lying<'a> {
    pub bytes: &'a [u8],
    pub shape: Shape,
    pub ghost lies: { Lies bytes.now shape },
}

impl<'a> Nodes for Lying<'a> {
    ghost image = { λ w. image_in w.bytes.now };

    ghost fits = { λ w. Unit };

    fn count(&self) -> u8 {
        self.shape.n
    }

    fn linked(&self, i: usize) -> u8 {
        let at = place_of(self.shape, i);
        self.bytes[at]
    }

    fn index(&self, i: usize) -> u64 {
        let at = place_of(self.shape, i);
        index_in(self.bytes, self.shape.form, at + 1)
    }

    fn head(&self) -> u64 {
        let heads = heads_in(self.bytes, self.shape);
        head_of(heads, self.shape)
    }
}

// 6, 7, 8.
pub fn sound_at(s: &[u8], z: Shape) -> Answer
    requires { Lies s.now z }
    ensures { result ≡ sound (image_in s.now) Taken }
{
    sound(&Lying { bytes: s, shape: z })
}
