// Whether an answer is no refusal.
ghost use Rattle.std.specs.Prelude.{◌≡◌};
ghost use Rattle.answer.specs.Answers.{accepted};

use super::Answer;

pub fn is_taken(a: Answer) -> bool
    ensures { result ≡ accepted a }
{
    a.is_ok()
}
