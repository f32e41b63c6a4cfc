// All that the lines of a page with one head line are told from, made once a page.
ghost use Rattle.std.specs.Prelude.{◌≤◌};
ghost use Rattle.sheet.specs.Sheet.{IsSheet, Small};

use crate::marks::marks_of;
use crate::order::{ranked, starts_of};
use image::Content;

#[derive(Clone, Copy)]
pub struct Sheet {
    pub ranks: [u64; 1040],
    pub items: [u32; 1040],
    pub slots: [usize; 1040],
    pub starts: [usize; 65],
    pub count: usize,
}

pub fn sheet_of(t: [[Content; 16]; 72], counts: [u8; 72], n: u8) -> Sheet
    requires { n ≤ 64 }
    ensures sheet { IsSheet t counts n result.ranks result.items result.slots result.starts result.count }
    ensures small { Small result.ranks result.items }
{
    let m = marks_of(t, counts, n);
    let ranks = m.ranks;
    let items = m.items;
    let lines = n as usize + 1;
    let mut slots = [0usize; 1040];
    let count = ranked(&mut slots, &ranks, 16, lines * 16);
    let starts = starts_of(&slots, count, &counts, lines);
    Sheet {
        ranks,
        items,
        slots,
        starts,
        count,
    }
}
