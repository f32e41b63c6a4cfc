// The numbers of an answer.
ghost use Rattle.std.specs.Prelude.{◌≡◌};
ghost use Rattle.answer.specs.Answers.{told, refusal, replied, told_reply, told_refusal};

use super::{Answer, Refusal, Reply, Told};

fn refused(number: u8, place: u32) -> Told
    ensures { result ≡ refusal number place }
{
    Told {
        number,
        place,
        reply: 0,
        item: 0,
    }
}

fn taken(reply: u8, item: u32) -> Told
    ensures { result ≡ replied reply item }
{
    Told {
        number: 0,
        place: 0,
        reply,
        item,
    }
}

impl From<Reply> for Told {
    ghost from_gives = { λ r t. t ≡ told_reply r };

    fn from(r: Reply) -> Told {
        match r {
            Reply::Taken => taken(0, 0),
            Reply::Done => taken(1, 0),
            Reply::Full => taken(2, 0),
            Reply::WornOut => taken(3, 0),
            Reply::Item(v) => taken(4, v),
            Reply::Empty => taken(5, 0),
        }
    }
}

impl From<Refusal> for Told {
    ghost from_gives = { λ r t. t ≡ told_refusal r };

    fn from(r: Refusal) -> Told {
        match r {
            Refusal::Length => refused(1, 0),
            Refusal::Mark => refused(2, 0),
            Refusal::Nodes => refused(3, 0),
            Refusal::Threads => refused(4, 0),
            Refusal::Events => refused(5, 0),
            Refusal::Linked(i) => refused(6, i),
            Refusal::Twin(i) => refused(7, i),
            Refusal::NoDummy => refused(8, 0),
            Refusal::Kind(p) => refused(9, p),
            Refusal::Number(p) => refused(10, p),
            Refusal::Busy(p) => refused(11, p),
            Refusal::Idle(p) => refused(12, p),
            Refusal::NotZero(p) => refused(13, p),
            Refusal::Contents(l) => refused(14, l),
            Refusal::Endings => refused(15, 0),
            Refusal::NoEnding => refused(16, 0),
            Refusal::Room => refused(17, 0),
            Refusal::Record => refused(18, 0),
            Refusal::Clean(p) => refused(19, p),
            Refusal::Narrow(i) => refused(20, i),
        }
    }
}

// An answer's number and place, or its reply and item.
pub fn told_of(a: Answer) -> Told
    ensures { result ≡ told a }
{
    match a {
        Ok(r) => Told::from(r),
        Err(e) => Told::from(e),
    }
}
