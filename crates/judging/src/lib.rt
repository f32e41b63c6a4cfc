// A history from a real machine, judged: whether some order of its operations leads a plain queue from the start to what was recovered.
// Public call: judge_history. What else is `pub` is for the crates above.

#![tactic(auto)]

mod asking;
mod placing;
mod reading;
mod refusing;
mod searching;
mod showing;
mod standing;

ghost use Rattle.std.specs.Prelude.{◌≡◌, ◌≤◌, length};
ghost use Rattle.answer.specs.Answers.{given};
ghost use Rattle.judging.specs.History.{history_answer};
ghost use Rattle.judging.specs.Judged.{verdict_number, said_of, judged_in};

use answer::Refusal;
use reading::History;
use refusing::is_sized;

// 02's three verdicts; the definition `verdict_number` in specs/ numbers them.
#[derive(Clone, Copy, Debug, PartialEq, Eq)]
pub enum Verdict {
    Unlawful,
    Lawful,
    Undecided,
}

impl From<Verdict> for u8 {
    ghost from_gives = { λ v r. r ≡ verdict_number v };

    fn from(v: Verdict) -> u8 {
        match v {
            Verdict::Unlawful => 0,
            Verdict::Lawful => 1,
            Verdict::Undecided => 2,
        }
    }
}

// The verdict, how many operations were tried, and the order that shows it lawful: `count` numbers, then zeros. A count beside sixteen places, not a
// Vec: the proved library has no heap.
#[derive(Clone, Copy, Debug, PartialEq, Eq)]
pub struct Judgement {
    pub verdict: Verdict,
    pub tries: u32,
    pub count: u8,
    pub order: [u8; 16],
}

// Where the search stands; specs/Place says what each field is.
#[derive(Clone, Copy)]
pub struct Place {
    pub taken: [u8; 16],
    pub order: [u8; 16],
    pub items: [u32; 16],
    pub bar: u64,
    pub count: u8,
    pub put: u8,
    pub from: u8,
}

// Says whether the history that the bytes are is lawful.
pub fn judge_history(h: &[u8]) -> Result<Judgement, Refusal>
    ensures { result ≡ given (history_answer h.now) (said_of (judged_in h.now)) }
{
    if !is_sized(h) {
        return Err(Refusal::Length);
    }
    let history = History { bytes: h };
    history.check()?;
    Ok(history.judged())
}
