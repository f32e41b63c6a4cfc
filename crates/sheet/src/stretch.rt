// As many lines of a page as a lent buffer takes, each made from the one before it.
ghost use Rattle.std.specs.Prelude.{◌≡◌, ◌++◌, ◌+◌, ◌-◌, ◌≤◌, ◌<◌, length, take};
ghost use Rattle.lists.specs.Tab.{over};
ghost use Rattle.lists.specs.Text.{decimal};
ghost use Rattle.image.specs.Form.{head_lines};
ghost use Rattle.machine.specs.Line.{line_count};
ghost use Rattle.page.specs.Filled.{lines_on, fitting};
ghost use Rattle.endtable.specs.Picks.{Ready};
ghost use Rattle.printing.specs.Lines.{if_fits};
ghost use Rattle.sheet.specs.Order.{starts_of};
ghost use Rattle.sheet.specs.Sheet.{line_told, SlotsOf};

use crate::tell::{tell_anew, tell_on};
use crate::turn::turn;
use endtable::ending::ending_picks;
use image::Shape;
use printing::stretch::Stretch;
use printing::{put, put_decimal};

// How many digits an ending's number has.
fn width_of(k: u32) -> usize
    requires { k < 65536 }
    ensures { result ≡ length (decimal k) }
{
    if k < 10 {
        return 1;
    }
    if k < 100 {
        return 2;
    }
    if k < 1000 {
        return 3;
    }
    if k < 10000 {
        return 4;
    }
    5
}

// The number k with the first n bytes of `end` behind it: whole, or nothing of it.
fn fit_line(b: &mut [u8], at: usize, k: u32, end: &[u8], n: usize) -> usize
    requires { (k < 65536) × (at ≤ length b.old) × (n ≤ length end.now) × (n < 65536) }
    ensures place { result ≡ at + length (if_fits (length b.old - at) (decimal k ++ take n end.now)) }
    ensures bytes { b.new ≡ over b.old at (if_fits (length b.old - at) (decimal k ++ take n end.now)) }
{
    let w = width_of(k);
    if b.len() - at < w + n {
        return at;
    }
    let p = put_decimal(b, at, k as u64);
    put(b, p, &end[..n])
}

// The lines of endings `from`, `from` + 1, .. below `to` from place `at` on, as many as fit. The end of a line is kept: a turn tells
// on only from the first slot that it may have changed.
pub fn write_endings(
    b: &mut [u8],
    at: usize,
    counts: [u8; 72],
    z: Shape,
    slots: &[usize; 1040],
    count: usize,
    ranks: &[u64; 1040],
    items: &[u32; 1040],
    starts: &[usize; 65],
    from: u32,
    to: u32,
) -> Stretch
    requires n_bound { (z.n ≤ 64) × (head_lines z ≡ 1) × Ready counts (line_count z) × (from ≤ to) × (to ≤ 65536) × (at ≤ length b.old) }
    requires count_bound { (count ≤ 1040) × SlotsOf z.n slots.now count × (starts.now ≡ starts_of slots.now count counts (1 + z.n)) }
    ensures next { result.next ≡ from + fitting (line_told ranks.now items.now slots.now count counts z) from (to - from) (length b.old - at) }
    ensures place { result.place ≡ at + length (lines_on (line_told ranks.now items.now slots.now count counts z) from (result.next - from)) }
    ensures bytes { b.new ≡ over b.old at (lines_on (line_told ranks.now items.now slots.now count counts z) from (result.next - from)) }
{
    let mut picks = ending_picks(counts, z, from);
    let mut end = [0u8; 11468];
    let mut ends = [0usize; 1041];
    let mut len = tell_anew(&mut end, &mut ends, slots, count, ranks, items, &picks);
    let mut p = at;
    for k in from..to {
        let q = fit_line(b, p, k, &end, len);
        if q == p {
            return Stretch { next: k, place: p };
        }
        p = q;
        let i = turn(&mut picks, &counts, z.n as usize + 1);
        len = tell_on(
            &mut end, &mut ends, slots, count, ranks, items, &picks, starts, i,
        );
    }
    Stretch { next: to, place: p }
}
