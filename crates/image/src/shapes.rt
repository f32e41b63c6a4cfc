// The tests of N and T, and the refusals that an image's shape has.
ghost use Rattle.std.specs.Prelude.{◌≡◌};
ghost use Rattle.answer.specs.Answers.{Taken};
ghost use Rattle.image.specs.Refusals.{nodes_fit, threads_fit, shape_answer};

use super::Shape;
use super::form::is_known;
use answer::{Answer, Refusal, Reply};

// 3: N is 2 to 64.
pub fn nodes_fit(n: u8) -> bool
    ensures { result ≡ nodes_fit n }
{
    (2..=64).contains(&n)
}

// 4: T is 1 to 8.
pub fn threads_fit(t: u8) -> bool
    ensures { result ≡ threads_fit t }
{
    (1..=8).contains(&t)
}

// 2, 3, and of an image that holds T 4, for its own and where it is not t.
pub fn shape_of(z: Shape, t: u8) -> Answer
    ensures { result ≡ shape_answer t z Taken }
{
    if !is_known(z.form) {
        return Err(Refusal::Mark);
    }
    if !nodes_fit(z.n) {
        return Err(Refusal::Nodes);
    }
    if z.form == 4 && (!threads_fit(z.t) || z.t != t) {
        return Err(Refusal::Threads);
    }
    Ok(Reply::Taken)
}
