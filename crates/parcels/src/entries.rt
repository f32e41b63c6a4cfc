// The group of a parcel at an ending that was started, and its entry.
ghost use Rattle.std.specs.Prelude.{◌≡◌, ◌+◌, ◌≤◌, length};
ghost use Rattle.lists.specs.Tab.{over};
ghost use Rattle.parcels.specs.Parcel.{turns_away};
ghost use Rattle.parcels.specs.Despatch.{entry_bytes};
ghost use Rattle.parcels.specs.Started.{head_in, queued_in, group_in, no_parcels};

use crate::moves::node_at;
use crate::{Group, Parcel};
use answer::Reply;
use machine::Machine;

// Behind a contract, so that no goal has the places written out.
pub fn no_parcels() -> [Parcel; 4096]
    ensures { result ≡ no_parcels }
{
    let none = Parcel {
        index: 0,
        item: 0,
        began: 0,
        thread: 0,
        node: 0,
        said: Reply::Taken,
        taker: None,
        handed: false,
    };
    [none; 4096]
}

// Recovered, with the index that it was linked with; top is the head index.
fn is_queued(m: Machine, top: u64, p: Parcel) -> bool
    requires { top ≡ head_in m }
    ensures { result ≡ queued_in m p }
{
    let v = node_at(m, p.node);
    p.node < 64 && v.linked == 1 && top < v.index && v.index == p.index
}

fn is_turned_away(said: Reply) -> bool
    ensures { result ≡ turns_away said }
{
    matches!(said, Reply::Full | Reply::WornOut)
}

// The first group whose condition holds.
#[tactic(auto, unfolding(crate::specs::Started::group_in))]
pub fn group_of(m: Machine, p: Parcel) -> Group
    ensures { result ≡ group_in m p }
{
    if p.handed {
        return Group::HandedOut;
    }
    let top = node_at(m, m.head).index;
    if is_queued(m, top, p) {
        return Group::Queued;
    }
    if is_turned_away(p.said) {
        return Group::TurnedAway;
    }
    if p.node < 64 && p.index <= top {
        return Group::TakenAlone;
    }
    Group::NeverIn
}

// An entry: begin event, thread, group, item.
pub fn put_entry(b: &mut [u8], at: usize, p: Parcel, group: Group)
    requires { at + 8 ≤ length b.old }
    ensures { b.new ≡ over b.old at (entry_bytes p group) }
{
    b[at] = (p.began % 256) as u8;
    b[at + 1] = (p.began / 256 % 256) as u8;
    b[at + 2] = p.thread;
    b[at + 3] = u8::from(group);
    b[at + 4] = (p.item % 256) as u8;
    b[at + 5] = (p.item / 256 % 256) as u8;
    b[at + 6] = (p.item / 256 / 256 % 256) as u8;
    b[at + 7] = (p.item / 256 / 256 / 256 % 256) as u8;
}
