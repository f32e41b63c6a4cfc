// The table laid out in slots, so that it can be lent: slot e is content e % 16 of line e / 16.
ghost use Rattle.std.specs.Prelude.{◌≡◌, ◌≤◌};
ghost use Rattle.sheet.specs.Marks.{mark_of, blank_slots, marks_of, items_in, slot_count};

use image::Content;

// A slot's rank, the head line's index; and its item.
#[derive(Clone, Copy)]
pub struct Marks {
    pub ranks: [u64; 1040],
    pub items: [u32; 1040],
}

fn no_ranks() -> [u64; 1040]
    ensures { result ≡ blank_slots }
{
    [0u64; 1040]
}

fn no_items() -> [u32; 1040]
    ensures { result ≡ blank_slots }
{
    [0u32; 1040]
}

// What slot e holds the content v for; its line has `count` contents.
fn mark_of(v: Content, e: usize, count: u8) -> u64
    ensures { result ≡ mark_of v e count }
{
    if e < 16 {
        return v.index;
    }
    if count as usize <= e % 16 {
        return 0;
    }
    if v.linked == 1 {
        return v.index;
    }
    0
}

pub fn marks_of(t: [[Content; 16]; 72], counts: [u8; 72], n: u8) -> Marks
    requires { n ≤ 64 }
    ensures { result ≡ record { ranks = marks_of t counts (slot_count n); items = items_in t (slot_count n) } }
{
    let mut ranks = no_ranks();
    let mut items = no_items();
    let last = (n as usize + 1) * 16;
    for e in 0..last {
        let l = e / 16;
        let v = t[l][e % 16];
        ranks[e] = mark_of(v, e, counts[l]);
        items[e] = v.item;
    }
    Marks { ranks, items }
}
