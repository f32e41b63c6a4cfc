// What stands where an image holds nothing.
ghost use Rattle.std.specs.Prelude.{◌≡◌};
ghost use Rattle.image.specs.Layout.{no_contents, no_heads};

use super::Content;

// A table of contents that are all zero. Behind a contract, so that no goal has the 64 elements written out.
pub fn no_contents() -> [Content; 64]
    ensures { result ≡ no_contents }
{
    let none = Content {
        index: 0,
        item: 0,
        linked: 0,
    };
    [none; 64]
}

// Indices of head lines that are all zero.
pub fn no_heads() -> [u64; 8]
    ensures { result ≡ no_heads }
{
    [0; 8]
}
