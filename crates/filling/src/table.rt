// The lines of a page from the table of its run, and from the sheet that the table gives.
ghost use Rattle.std.specs.Prelude.{◌≡◌, ◌+◌, ◌-◌, ◌≤◌, ◌<◌, length};
ghost use Rattle.lists.specs.Tab.{over};
ghost use Rattle.image.specs.Form.{head_lines};
ghost use Rattle.machine.specs.Line.{line_count};
ghost use Rattle.page.specs.Filled.{lines_on, fitting};
ghost use Rattle.endtable.specs.Picks.{Ready};
ghost use Rattle.printing.specs.Bounds.{line_room};
ghost use Rattle.printing.specs.Lines.{line_from};
ghost use Rattle.sheet.specs.Sheet.{IsSheet, Small};
ghost use Rattle.filling.specs.Lines.{table_line};

use image::{Content, Shape, head_lines};
use printing::fitting::fit_first_line;
use printing::stretch::Stretch;
use sheet::sheet::sheet_of;

// The lines of endings `from`, `from` + 1, .. below `to` from place `at` on, as many as fit: told one from the other from the table's
// sheet where there is one head line, and picked from the table where there are more.
fn write_told(
    b: &mut [u8],
    at: usize,
    t: [[Content; 16]; 72],
    counts: [u8; 72],
    z: Shape,
    slots: &[usize; 1040],
    told: usize,
    ranks: &[u64; 1040],
    items: &[u32; 1040],
    starts: &[usize; 65],
    from: u32,
    to: u32,
) -> Stretch
    requires n_bound { (z.n ≤ 64) × (head_lines z ≤ 8) × Ready counts (line_count z) × (from ≤ to) × (to ≤ 65536) × (at ≤ length b.old) }
    requires sheet { IsSheet t counts z.n ranks.now items.now slots.now starts.now told × Small ranks.now items.now }
    ensures next { result.next ≡ from + fitting (line_from t counts z) from (to - from) (length b.old - at) }
    ensures place { result.place ≡ at + length (lines_on (line_from t counts z) from (result.next - from)) }
    ensures bytes { b.new ≡ over b.old at (lines_on (line_from t counts z) from (result.next - from)) }
    ensures short { from < to → length (line_from t counts z from) ≤ line_room 64 }
{
    if head_lines(z) == 1 {
        return sheet::stretch::write_endings(
            b, at, counts, z, slots, told, ranks, items, starts, from, to,
        );
    }
    printing::stretch::write_endings(b, at, t, counts, z, from, to)
}

// Lines from line `from` on, as many as fit into b: line 0 is the page's first line, line k + 1 that of ending k. A program runs the
// schedule once and makes its sheet, and calls this until no line is left. Where there is room for the longest line, one at least is
// written.
pub fn fill_told(
    t: [[Content; 16]; 72],
    counts: [u8; 72],
    z: Shape,
    slots: &[usize; 1040],
    told: usize,
    ranks: &[u64; 1040],
    items: &[u32; 1040],
    starts: &[usize; 65],
    threads: u8,
    events: u16,
    count: u32,
    from: u32,
    b: &mut [u8],
) -> Stretch
    requires n_bound { (z.n ≤ 64) × (head_lines z ≤ 8) × Ready counts (line_count z) × (threads ≤ 8) × (events ≤ 4096) × (count ≤ 65536) × (from ≤ count) }
    requires sheet { IsSheet t counts z.n ranks.now items.now slots.now starts.now told × Small ranks.now items.now }
    ensures next { result.next ≡ from + fitting (table_line t counts z threads events count) from (count + 1 - from) (length b.old) }
    ensures place { result.place ≡ length (lines_on (table_line t counts z threads events count) from (result.next - from)) }
    ensures bytes { b.new ≡ over b.old 0 (lines_on (table_line t counts z threads events count) from (result.next - from)) }
    ensures onward { line_room 64 ≤ length b.old → from < result.next }
{
    if 0 < from {
        let w = write_told(
            b,
            0,
            t,
            counts,
            z,
            slots,
            told,
            ranks,
            items,
            starts,
            from - 1,
            count,
        );
        return Stretch {
            next: w.next + 1,
            place: w.place,
        };
    }
    let p = fit_first_line(b, 0, threads, z.n, events, count);
    if p == 0 {
        return Stretch { next: 0, place: 0 };
    }
    let w = write_told(
        b, p, t, counts, z, slots, told, ranks, items, starts, 0, count,
    );
    Stretch {
        next: w.next + 1,
        place: w.place,
    }
}

// The same from the table itself. A call of its own: the sheet stands on the stack only while it is read, and not while a schedule runs.
#[inline(never)]
pub fn fill(
    t: [[Content; 16]; 72],
    counts: [u8; 72],
    z: Shape,
    threads: u8,
    events: u16,
    count: u32,
    from: u32,
    b: &mut [u8],
) -> Stretch
    requires { (z.n ≤ 64) × (head_lines z ≤ 8) × Ready counts (line_count z) × (threads ≤ 8) × (events ≤ 4096) × (count ≤ 65536) × (from ≤ count) }
    ensures next { result.next ≡ from + fitting (table_line t counts z threads events count) from (count + 1 - from) (length b.old) }
    ensures place { result.place ≡ length (lines_on (table_line t counts z threads events count) from (result.next - from)) }
    ensures bytes { b.new ≡ over b.old 0 (lines_on (table_line t counts z threads events count) from (result.next - from)) }
    ensures onward { line_room 64 ≤ length b.old → from < result.next }
{
    let s = sheet_of(t, counts, z.n);
    let ranks = s.ranks;
    let items = s.items;
    let slots = s.slots;
    let starts = s.starts;
    fill_told(
        t, counts, z, &slots, s.count, &ranks, &items, &starts, threads, events, count, from, b,
    )
}
