// The end of an ending's line, told from the slots in their order; and told on from the first slot that a turn may have changed.
ghost use Rattle.std.specs.Prelude.{◌≡◌, ◌++◌, ◌+◌, ◌*◌, ◌≤◌, ◌<◌, length, get_or, take};
ghost use Rattle.lists.specs.Tab.{over};
ghost use Rattle.lists.specs.Text.{text, decimal};
ghost use Rattle.sheet.specs.Told.{piece_of, head_mark, told_to, told_end, Told, Slots, Closed};

use printing::{put, put_decimal};

// What a slot adds: its item behind a blank where it is chosen and recovered.
fn put_piece(end: &mut [u8], p: usize, d: u8, j: u8, head: u64, rank: u64, item: u32) -> usize
    requires { p + 11 ≤ length end.old }
    ensures place { (result ≡ p + length (piece_of d j head rank item)) × (result ≤ p + 11) }
    ensures bytes { end.new ≡ over end.old p (piece_of d j head rank item) }
{
    if d != j {
        return p;
    }
    if rank <= head {
        return p;
    }
    end[p] = 32;
    put_decimal(end, p + 1, item as u64)
}

// The slots from place `from` on; what is told before them stays.
fn tell_slots(
    end: &mut [u8],
    ends: &mut [usize],
    from: usize,
    slots: &[usize; 1040],
    count: usize,
    ranks: &[u64; 1040],
    items: &[u32; 1040],
    picks: &[u8; 72],
    head: u64,
) -> usize
    requires from_le_count { (from ≤ count) × (count ≤ 1040) × Slots slots.now count × (length end.old ≡ 11468) × (length ends.old ≡ 1041) }
    requires told_2 { Told ranks.now items.now slots.now picks.now head from end.old ends.old }
    ensures told { Told ranks.now items.now slots.now picks.now head count end.new ends.new }
    ensures place { result ≡ get_or ends.new count 0 }
{
    let mut p = ends[from];
    for c in from..count {
        let e = slots[c];
        let q = put_piece(
            end,
            p,
            picks[e / 16],
            (e % 16) as u8,
            head,
            ranks[e],
            items[e],
        );
        p = q;
        ends[c + 1] = q;
    }
    p
}

// The line's end: a dash where no item was told, which is where the first slot begins.
fn close(end: &mut [u8], p: usize, begin: usize) -> usize
    requires { p + 3 ≤ length end.old }
    ensures { Closed end.old p begin end.new result }
{
    if p == begin {
        return put(end, p, b" -\n");
    }
    put(end, p, b"\n")
}

// All that follows the slots from place `from` on, and the line's end.
fn tell_from(
    end: &mut [u8],
    ends: &mut [usize],
    from: usize,
    slots: &[usize; 1040],
    count: usize,
    ranks: &[u64; 1040],
    items: &[u32; 1040],
    picks: &[u8; 72],
    head: u64,
) -> usize
    requires from_le_count { (from ≤ count) × (count ≤ 1040) × Slots slots.now count × (length end.old ≡ 11468) × (length ends.old ≡ 1041) }
    requires told_2 { Told ranks.now items.now slots.now picks.now head from end.old ends.old }
    ensures told { Told ranks.now items.now slots.now picks.now head count end.new ends.new }
    ensures line { (result ≤ 11468) × (take result end.new ≡ told_end ranks.now items.now slots.now picks.now head count) }
{
    let p = tell_slots(end, ends, from, slots, count, ranks, items, picks, head);
    let begin = ends[0];
    close(end, p, begin)
}

fn wide(x: u8) -> usize
    ensures { (result ≡ x) × (result < 256) }
{
    x as usize
}

// The head index behind a blank.
fn put_head(end: &mut [u8], head: u64) -> usize
    requires { 21 ≤ length end.old }
    ensures place { (result ≡ length (text " " ++ decimal head)) × (result ≤ 21) }
    ensures bytes { end.new ≡ over end.old 0 (text " " ++ decimal head) }
{
    end[0] = 32;
    put_decimal(end, 1, head)
}

// The whole end of the line that the choices give.
pub fn tell_anew(
    end: &mut [u8],
    ends: &mut [usize],
    slots: &[usize; 1040],
    count: usize,
    ranks: &[u64; 1040],
    items: &[u32; 1040],
    picks: &[u8; 72],
) -> usize
    requires { (count ≤ 1040) × Slots slots.now count × (length end.old ≡ 11468) × (length ends.old ≡ 1041) }
    ensures told { Told ranks.now items.now slots.now picks.now (head_mark ranks.now picks.now) count end.new ends.new }
    ensures line { (result ≤ 11468) × (take result end.new ≡ told_end ranks.now items.now slots.now picks.now (head_mark ranks.now picks.now) count) }
{
    let h = wide(picks[0]);
    let head = ranks[h];
    let p = put_head(end, head);
    ends[0] = p;
    tell_from(end, ends, 0, slots, count, ranks, items, picks, head)
}

// After a turn at line i: what stands before the first slot that it may change stays. A head line's turn changes all.
pub fn tell_on(
    end: &mut [u8],
    ends: &mut [usize],
    slots: &[usize; 1040],
    count: usize,
    ranks: &[u64; 1040],
    items: &[u32; 1040],
    picks: &[u8; 72],
    starts: &[usize; 65],
    i: usize,
) -> usize
    requires count_bound { (count ≤ 1040) × Slots slots.now count × (length end.old ≡ 11468) × (length ends.old ≡ 1041) × (i < 65) }
    requires i_bound { (i ≡ 0 → ⊥) → (get_or starts.now i 0 ≤ count) × Told ranks.now items.now slots.now picks.now (head_mark ranks.now picks.now) (get_or starts.now i 0) end.old ends.old }
    ensures told { Told ranks.now items.now slots.now picks.now (head_mark ranks.now picks.now) count end.new ends.new }
    ensures line { (result ≤ 11468) × (take result end.new ≡ told_end ranks.now items.now slots.now picks.now (head_mark ranks.now picks.now) count) }
{
    if i == 0 {
        return tell_anew(end, ends, slots, count, ranks, items, picks);
    }
    let h = wide(picks[0]);
    let head = ranks[h];
    let from = starts[i];
    tell_from(end, ends, from, slots, count, ranks, items, picks, head)
}
