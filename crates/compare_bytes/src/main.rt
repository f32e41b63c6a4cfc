// The calls on bytes, for many inputs in one run, so that another program's answers can be compared with theirs.
// Standard input: one byte that names the mode, then a stream of items, each behind its length (4 bytes, little-endian).
//   i  an image:    `refused N at P`, or the image written again, in hex
//   s  a schedule:  `refused N at P`, or `taken T COUNT IMAGE EVENTS`, the last two in hex
//   m  an image to be mended and a room: `N P BUFFER LIST`, the whole lent buffer in hex, then `NODE:REASON` for each changed node, or `-`
//   c  contents to be written: `N P BUFFER`, the whole lent buffer in hex
//   d  contents that say the version they are for, with indices of 8 bytes: the same
//   w  an image to be widened, the buffer's room behind it: the same
//   v  an image to be narrowed: the same
//   j  an image of "UQP" to be imported, the buffer's room behind it: the same
//   x  an image to be exported, T (1 byte) and the room behind it: the same

#![tactic(auto)]

mod images;
mod lent;
mod mended;
mod schedules;

use compare::items::{answer_all, mode_of};
use compare::output::Output;
use converting::{import_desks, narrow, widen};
use images::answer_image;
use lent::{answer_contents, answer_converted, answer_exported, answer_wide_contents};
use mended::answer_mended;
use schedules::answer_schedule;
use std::io;

fn main(rt: HostRuntime) {
    let mut input = rt.stdin();
    let answer: fn(&[u8], &mut Output) -> io::Result<()> = match mode_of(&mut input) {
        b'i' => answer_image,
        b's' => answer_schedule,
        b'm' => answer_mended,
        b'c' => answer_contents,
        b'd' => answer_wide_contents,
        b'w' => |s, out| answer_converted(s, out, |s, b| widen(s, b)),
        b'v' => |s, out| answer_converted(s, out, |s, b| narrow(s, b)),
        b'j' => |s, out| answer_converted(s, out, |s, b| import_desks(s, b)),
        b'x' => answer_exported,
        // No mode: what stands behind it is read and not answered.
        _ => |_, _| Ok(()),
    };
    // Longer than any image or schedule; what is longer still is refused as its first part is.
    let mut item = [0u8; 40000];
    answer_all(&mut input, &mut item, Output::new(rt.stdout()), answer);
}
