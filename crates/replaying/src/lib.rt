// What a probe recorded, replayed: where an observed answer first differs from the machine's.
// Public call: replay.

#![tactic(auto)]

mod asking;
mod reading;
mod running;

ghost use Rattle.std.specs.Prelude.{◌≡◌};
ghost use Rattle.answer.specs.Answers.{given};
ghost use Rattle.replaying.specs.Replay.{replay_answer, replay_of, difference_in};

use answer::Refusal;
use machine::Event;
use running::replay_events;

// Twelve bytes of a probe file: an event, the observed answer with its item, and a byte that is zero. The observed answer is a byte: above 5 it is refused.
#[derive(Clone, Copy, Debug, PartialEq, Eq)]
pub struct Probed {
    pub event: Event,
    pub seen: u8,
    pub item: u32,
    pub last: u8,
}

// An event whose answer differs: its number, the observed answer and the machine's, each with its item.
#[derive(Clone, Copy, Debug, PartialEq, Eq)]
pub struct Difference {
    pub event: u32,
    pub seen: u8,
    pub seen_item: u32,
    pub given: u8,
    pub given_item: u32,
}

// The probe file that the bytes are, replayed: the first event whose answer differs, or none where all agree.
pub fn replay(s: &[u8]) -> Result<Option<Difference>, Refusal>
    ensures { result ≡ given (replay_answer s.now) (difference_in (replay_of s.now)) }
{
    let schedule = codec::open_file(s, 82, 12)?;
    replay_events(s, schedule)
}
