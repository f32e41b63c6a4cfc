// One line of a schedule's page: its contents as bytes.

#![tactic(auto)]

ghost use Rattle.std.specs.Prelude.{◌≡◌, ◌*◌, ◌<◌, ◌≤◌, length, IfOk};
ghost use Rattle.answer.specs.Answers.{given};
ghost use Rattle.lists.specs.Tab.{over};
ghost use Rattle.image.specs.Form.{head_lines};
ghost use Rattle.image.specs.Layout.{body_bytes};
ghost use Rattle.schedule.specs.Layout.{schedule_shape};
ghost use Rattle.pages.specs.Lines.{line_in};
ghost use Rattle.calls.specs.Line.{index_bytes, parts_of, room_of, line_answered, line_given, line_written};

use answer::Refusal;
use calls::packing::packed_result;
use image::{Content, Shape, head_lines};

// The indices of the first n contents.
fn put_indices(b: &mut [u8], contents: [Content; 16], n: usize)
    requires { (n ≤ 16) × (n * 8 ≤ length b.old) }
    ensures { b.new ≡ over b.old 0 (index_bytes contents n) }
{
    for i in 0..n {
        codec::put_index(b, 2, i * 8, contents[i].index);
    }
}

// The first n contents whole.
fn put_contents(b: &mut [u8], contents: [Content; 16], n: usize)
    requires { (n ≤ 16) × (n * 13 ≤ length b.old) }
    ensures { b.new ≡ over b.old 0 (body_bytes 2 contents n) }
{
    for i in 0..n {
        codec::put_content(b, 2, i * 13, contents[i]);
    }
}

fn put_parts(b: &mut [u8], head: bool, contents: [Content; 16], n: usize)
    requires { (n ≤ 16) × (room_of head n ≤ length b.old) }
    ensures { b.new ≡ over b.old 0 (parts_of head contents n) }
{
    if head {
        put_indices(b, contents, n);
    } else {
        put_contents(b, contents, n);
    }
}

fn room_of(head: bool, n: usize) -> usize
    requires { n ≤ 16 }
    ensures { result ≡ room_of head n }
{
    if head { n * 8 } else { n * 13 }
}

// How many head lines the machine of a schedule has.
fn head_count(s: &[u8]) -> usize
    requires { 18 ≤ length s.now }
    ensures { result ≡ head_lines (schedule_shape s.now) }
{
    let form = codec::form_in(&s[8..]);
    let z = Shape {
        form,
        n: s[13],
        t: s[5],
    };
    head_lines(z)
}

// How many contents the line has; they are written where there is room for them.
fn put_line(schedule: &[u8], line: u32, buffer: &mut [u8]) -> Result<u64, Refusal>
    ensures gives { result ≡ given (line_answered schedule.now line (length buffer.old)) (length (line_in schedule.now line)) }
    ensures written { buffer.new ≡ line_written schedule.now line buffer.old }
    ensures small { IfOk result (λ v. v < 72057594037927936) }
{
    let r = pages::line_contents(schedule, line)?;
    let count = usize::from(r.count);
    let head = (line as usize) < head_count(schedule);
    let room = room_of(head, count);
    if buffer.len() < room {
        return Err(Refusal::Room);
    }
    put_parts(buffer, head, r.contents, count);
    Ok(u64::from(r.count))
}

// The contents of a line, the oldest first, with indices of 64 bits, into the buffer's front. The value is how many.
pub fn line(schedule: &[u8], line: u32, buffer: &mut [u8]) -> u64
    ensures answers { result ≡ line_given schedule.now line (length buffer.old) }
    ensures written { buffer.new ≡ line_written schedule.now line buffer.old }
{
    packed_result(put_line(schedule, line, buffer))
}
