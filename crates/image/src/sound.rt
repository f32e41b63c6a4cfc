// The tests on an image by value: unclear linked bytes (6), twins (7), the dummy (8).
ghost use Rattle.std.specs.Prelude.{◌≡◌, ◌≤◌};
ghost use Rattle.answer.specs.Answers.{Taken};
ghost use Rattle.image.specs.Form.{head_lines};
ghost use Rattle.image.specs.Layout.{image_shape};
ghost use Rattle.image.specs.Refusals.{sound};

use super::Image;
use super::nodes::sound;
use answer::Answer;

// 6, then 7 and 8.
pub fn sound_of(g: Image) -> Answer
    requires { (g.n ≤ 64) × (head_lines (image_shape g) ≤ 8) }
    ensures { result ≡ sound g Taken }
{
    sound(&g)
}
