// The despatch desk's list: what became of each enqueue begun since a schedule's last start, at one of its endings. It names public calls alone.
// Public call: despatch.

#![tactic(auto)]

mod entries;
mod moves;
mod packing;

ghost use Rattle.std.specs.Prelude.{◌≡◌, true, ◌≤◌, length, take};
ghost use Rattle.answer.specs.Answers.{accepted, given};
ghost use Rattle.image.specs.Refusals.{read_image};
ghost use Rattle.schedule.specs.Layout.{threads_in, schedule_in, schedule_answer};
ghost use Rattle.parcels.specs.Despatch.{despatch_answer, despatch_count, despatch_written, number_of};
ghost use Rattle.parcels.specs.Started.{end_size, started_from, no_bytes};

use crate::packing::packed;
use answer::{Refusal, Reply};
use machine::Machine;
use schedule::Schedule;

// What is known of an enqueue: its begin, its item, what it has answered (Taken: nothing yet), where it was linked and with which index, which
// thread's dequeue took it, and whether that one answered with it.
// The node is the number that the record has for it, where 255 names none: a link of a record out of range may name any.
#[derive(Clone, Copy, Debug, PartialEq, Eq)]
pub struct Parcel {
    pub index: u64,
    pub item: u32,
    pub began: u16,
    pub thread: u8,
    pub node: u8,
    pub said: Reply,
    pub taker: Option<u8>,
    pub handed: bool,
}

// What a step of a thread tells: nothing, a link (of which node, with which index), an answer that is no item, a node taken (of which index), an
// item answered.
#[derive(Clone, Copy, Debug, PartialEq, Eq)]
pub enum News {
    Nothing,
    Linked(u8, u8, u64),
    Answered(u8, Reply),
    Took(u8, u64),
    Gave(u8),
}

// Where an enqueue stands at an ending.
#[derive(Clone, Copy, Debug, PartialEq, Eq)]
pub enum Group {
    HandedOut,
    Queued,
    TurnedAway,
    TakenAlone,
    NeverIn,
}

impl From<Group> for u8 {
    ghost from_gives = { λ g n. n ≡ number_of g };

    fn from(g: Group) -> u8 {
        match g {
            Group::HandedOut => 1,
            Group::Queued => 2,
            Group::TurnedAway => 3,
            Group::TakenAlone => 4,
            Group::NeverIn => 5,
        }
    }
}

// Behind a contract, so that no goal has the places written out. No image is longer.
fn no_bytes() -> [u8; 1024]
    ensures { result ≡ no_bytes }
{
    [0u8; 1024]
}

// The machine started from the image in the first bytes of room, which is as long as the schedule's own.
fn started(s: &[u8], d: Schedule, room: &[u8]) -> Result<Machine, Refusal>
    requires { (accepted (schedule_answer s.now) ≡ true) × (d ≡ schedule_in s.now) × (end_size s.now ≤ length room.now) }
    ensures { result ≡ started_from (threads_in s.now) (read_image (take (end_size s.now) room.now)) }
{
    let size = s.len() - 8 - (d.count as usize) * 6;
    let g = codec::read_image(&room[..size])?;
    machine::start_from(g, d.t)
}

// The list of a schedule at ending k, into the first bytes of the lent buffer, 8 bytes an entry; the bytes after them stay. How many entries were
// written; on a refusal nothing is.
pub fn despatch(s: &[u8], k: u64, b: &mut [u8]) -> Result<u16, Refusal>
    ensures gives { result ≡ given (despatch_answer s.now k (length b.old)) (despatch_count s.now k (length b.old)) }
    ensures bytes { b.new ≡ despatch_written s.now k b.old }
{
    let mut room = no_bytes();
    pages::ending_of(s, k, &mut room)?;
    let d = codec::read_schedule(s)?;
    let end = started(s, d, &room)?;
    packed(s, d, end, b)
}
