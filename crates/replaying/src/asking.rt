// What an event of a probe file is answered, and whether its observed answer is the machine's.
ghost use Rattle.std.specs.Prelude.{◌≡◌};
ghost use Rattle.replaying.specs.Probe.{wrong_zero, asked, odd};
ghost use Rattle.replaying.specs.Replay.{noted_difference};

use crate::{Difference, Probed};
use answer::{Answer, Refusal, told_of};

fn is_wrong_zero(x: Probed) -> bool
    ensures { result ≡ wrong_zero x }
{
    x.last != 0 || (x.seen != 4 && x.item != 0)
}

// 9, 10, 13, then the others: a is the event's own answer.
#[tactic(auto, unfolding(crate::specs::Probe::asked))]
pub fn answer_to(p: u32, x: Probed, a: Answer) -> Answer
    ensures { result ≡ asked p x a }
{
    if 5 < x.seen {
        return Err(Refusal::Kind(p));
    }
    match a {
        Err(Refusal::Kind(_) | Refusal::Number(_)) => a,
        _ => {
            if is_wrong_zero(x) {
                Err(Refusal::NotZero(p))
            } else {
                a
            }
        }
    }
}

#[tactic(auto, unfolding(crate::specs::Probe::odd))]
fn is_odd(x: Probed, a: Answer) -> bool
    ensures { result ≡ odd x a }
{
    let t = told_of(a);
    t.reply != x.seen || t.item != x.item
}

// What is known after event i, whose answer was a: a difference found before it stays.
#[tactic(auto, unfolding(crate::specs::Replay::noted_difference))]
pub fn note(known: Option<Difference>, i: u32, x: Probed, a: Answer) -> Option<Difference>
    ensures { result ≡ noted_difference known i x a }
{
    if known.is_some() || !is_odd(x, a) {
        return known;
    }
    let t = told_of(a);
    Some(Difference {
        event: i,
        seen: x.seen,
        seen_item: x.item,
        given: t.reply,
        given_item: t.item,
    })
}
