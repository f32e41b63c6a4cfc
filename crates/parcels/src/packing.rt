// The events of a schedule in turn, with a parcel for each enqueue begun since the last start; then the parcels as entries.
ghost use Rattle.std.specs.Prelude.{◌≡◌, true, ◌*◌, ◌≤◌, length, map};
ghost use Rattle.answer.specs.Answers.{accepted};
ghost use Rattle.lists.specs.Tab.{over};
ghost use Rattle.schedule.specs.Layout.{schedule_in};
ghost use Rattle.page.specs.Refusals.{page_answer};
ghost use Rattle.parcels.specs.Parcel.{moved as moved_of};
ghost use Rattle.parcels.specs.Started.{Packed, packed_to};

use crate::entries::{group_of, no_parcels, put_entry};
use crate::moves::{fresh, moved, news_of};
use crate::{News, Parcel};
use answer::Refusal;
use machine::Machine;
use schedule::Schedule;

// All of them after the news w.
fn tell_all(parcels: &mut [Parcel], w: News)
    ensures { parcels.new ≡ map (moved_of w) parcels.old }
{
    for p in parcels {
        *p = moved(w, *p);
    }
}

// Their entries, one behind the other.
fn put_entries(b: &mut [u8], end: Machine, parcels: &[Parcel])
    requires { length parcels.now * 8 ≤ length b.old }
    ensures { b.new ≡ over b.old 0 (packed_to end parcels.now (length parcels.now)) }
{
    for i in 0..parcels.len() {
        let p = parcels[i];
        put_entry(b, i * 8, p, group_of(end, p));
    }
}

// Of a schedule whose page is not refused; end is the machine that was started from its ending.
pub fn packed(s: &[u8], d: Schedule, end: Machine, b: &mut [u8]) -> Result<u16, Refusal>
    requires { (accepted (page_answer s.now) ≡ true) × (d ≡ schedule_in s.now) }
    ensures { Packed s.now end b.old result b.new }
{
    let mut m = machine::start_from(d.image, d.t)?;
    // Places for as many enqueues as a schedule has events, and how many are in use: the library has no heap.
    let mut parcels = no_parcels();
    let mut count = 0usize;
    let last = d.count as usize;
    for i in 0..last {
        let e = codec::event_of(s, i)?;
        let before = m;
        let out = events::on_event(before, e);
        m = out.machine;
        // The kind is an event's byte, as events::on_event reads it: 1 begins an enqueue, 3 is a step, 5 a crash.
        match e.kind {
            1 => {
                parcels[count] = fresh(i as u16, e);
                count += 1;
            }
            3 => tell_all(&mut parcels[..count], news_of(before, e.number, out)),
            5 => count = 0,
            _ => {}
        }
    }
    if b.len() < count * 8 {
        return Err(Refusal::Room);
    }
    put_entries(b, end, &parcels[..count]);
    Ok(count as u16)
}
