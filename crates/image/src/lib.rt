// An image: what the persisted copies of the memory hold.

#![tactic(auto)]

ghost use Rattle.std.specs.Prelude.{◌≡◌};
ghost use Rattle.image.specs.Layout.{head_content, image_shape};

pub mod blank;
pub mod form;
pub mod heads;
pub mod nodes;
pub mod recovered;
pub mod same;
pub mod shapes;
pub mod sound;

pub use blank::{no_contents, no_heads};
pub use form::{fitting_of, head_lines, is_known, place_of, size_of, top_of, width_of};
pub use heads::{head_of, largest_of};
pub use recovered::{dummy_of, is_recovered, recovered_in, startable_of};
pub use same::is_same;
pub use shapes::{nodes_fit, shape_of, threads_fit};
pub use sound::sound_of;

// The content of a node's line.
#[derive(Clone, Copy, Debug, PartialEq, Eq)]
pub struct Content {
    pub index: u64,
    pub item: u32,
    pub linked: u8,
}

// What fixes an image's layout and a machine's lines: the form (docs/DECISIONS.md), N, T. The form is a byte and no enum: start_from answers 2 to one that is none.
#[derive(Clone, Copy, Debug, PartialEq, Eq)]
pub struct Shape {
    pub form: u8,
    pub n: u8,
    pub t: u8,
}

// Its shape, the indices of the head lines, and the contents of the N nodes. T is part of it in "UQP" alone, as many head lines as its shape has,
// and the nodes below n.
#[derive(Clone, Copy, Debug, PartialEq, Eq)]
pub struct Image {
    pub heads: [u64; 8],
    pub nodes: [Content; 64],
    pub form: u8,
    pub n: u8,
    pub t: u8,
}

impl Content {
    // What the line of a head holds: its index alone.
    pub fn of_head(index: u64) -> Content
        ensures { result ≡ head_content index }
    {
        Content {
            index,
            item: 0,
            linked: 0,
        }
    }
}

impl Image {
    // What fixes its layout.
    pub fn shape(&self) -> Shape
        ensures { result ≡ image_shape self.now }
    {
        Shape {
            form: self.form,
            n: self.n,
            t: self.t,
        }
    }
}
