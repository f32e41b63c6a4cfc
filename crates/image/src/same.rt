// Whether two contents are equal.
ghost use Rattle.std.specs.Prelude.{◌≡◌};
ghost use Rattle.image.specs.Layout.{same_content};

use super::Content;

pub fn is_same(a: Content, b: Content) -> bool
    ensures { result ≡ same_content a b }
{
    a == b
}
