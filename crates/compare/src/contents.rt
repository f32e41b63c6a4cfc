// Contents of a memory. An item: N (1 byte), head index (4), 64 nodes of linked (1), index (4) and item (4); more may stand behind.
// A wide item: the image's version (1), then the same with indices of 8 bytes.
ghost use Rattle.std.specs.Prelude.{◌≤◌};

use image::{Content, Image};
use std::array;
use stream::{byte, long, word};

// An index, of 4 bytes or 8, stands at the front of the bytes from a place on.
fn index_at(s: &[u8], at: usize, wide: bool) -> u64 {
    if wide {
        long(s, at)
    } else {
        u64::from(word(s, at))
    }
}

// The bytes from `at` on are N, the head index and the nodes.
fn contents_at(s: &[u8], at: usize, form: u8, wide: bool) -> Image
    requires { at ≤ 1 }
{
    let width = if wide { 8 } else { 4 };
    let nodes = array::from_fn(|i| {
        let place = at + 1 + width + i * (width + 5);
        Content {
            index: index_at(s, place + 1, wide),
            item: word(s, place + 1 + width),
            linked: byte(s, place),
        }
    });
    let mut heads = [0; 8];
    heads[0] = index_at(s, at + 1, wide);
    Image {
        heads,
        nodes,
        form,
        n: byte(s, at),
        t: 0,
    }
}

pub fn contents_of(s: &[u8]) -> Image {
    contents_at(s, 0, 1, false)
}

pub fn wide_contents_of(s: &[u8]) -> Image {
    contents_at(s, 1, byte(s, 0), true)
}

// How many bytes an image has that a schedule carries. One that is taken has the last letter of its image's mark at byte 10, the version at byte 11
// and N at byte 13, behind "UQP" T at byte 14.
pub fn size_in(s: &[u8]) -> usize
    ensures { (1 ≤ result) × (result ≤ 3329) }
{
    let n = usize::from(byte(s, 13));
    if byte(s, 10) == b'P' {
        return 7 + usize::from(byte(s, 14)) * 4 + n * 9;
    }
    if byte(s, 11) == 2 {
        return 14 + n * 13;
    }
    10 + n * 9
}
