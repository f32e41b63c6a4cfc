// The layout of a schedule by the shape of its image: where its parts stand, and their bytes.
ghost use Rattle.std.specs.Prelude.{◌≡◌, true, [], ◌∷◌, ◌+◌, ◌%◌, ◌≤◌, length};
ghost use Rattle.lists.specs.Tab.{over};
ghost use Rattle.image.specs.Form.{known, heads_at, node_size};
ghost use Rattle.image.specs.Layout.{mark_bytes};
ghost use Rattle.spelling.specs.Layout.{said_shape, head_start, node_start, head_of, node_said, event_said};

use codec::{put_content, put_word};
use image::{Content, Shape};
use spelling::Survey;

// An event.
pub const EVENT: usize = 6;

// The shape of the image that the lines say.
pub fn shape_said(v: Survey) -> Shape
    ensures { result ≡ said_shape v }
{
    Shape {
        form: v.form,
        n: (v.n % 256) as u8,
        t: (v.t % 256) as u8,
    }
}

// Where the index of head line k begins.
pub fn head_start(form: u8, k: usize) -> usize
    requires { (known form ≡ true) × (k ≤ 255) }
    ensures { result ≡ head_start form k }
{
    match form {
        2 => 14 + k * 8,
        4 => 15 + k * 4,
        _ => 14 + k * 4,
    }
}

// Where node i begins.
pub fn node_start(g: Shape, i: usize) -> usize
    requires { (known g.form ≡ true) × (i ≤ 255) }
    ensures start { result ≡ node_start g i }
    ensures few { result ≤ 3337 }
{
    match g.form {
        2 => 22 + i * 13,
        4 => 15 + g.t as usize * 4 + i * 9,
        _ => 18 + i * 9,
    }
}

pub fn put_node_at(b: &mut [u8], form: u8, at: usize, linked: u64, index: u64, item: u64)
    requires { (known form ≡ true) × (at + node_size form ≤ length b.old) }
    ensures { b.new ≡ over b.old at (node_said form linked index item) }
{
    let v = Content {
        index,
        item: (item % 4294967296) as u32,
        linked: (linked % 256) as u8,
    };
    put_content(b, form, at, v);
}

pub fn put_event_at(b: &mut [u8], at: usize, kind: u64, number: u64, item: u64)
    requires { at + 6 ≤ length b.old }
    ensures { b.new ≡ over b.old at (event_said kind number item) }
{
    b[at] = (kind % 256) as u8;
    b[at + 1] = (number % 256) as u8;
    put_word(b, at + 2, item);
}

// Three letters and a version.
fn put_mark(b: &mut [u8], at: usize, c: u8, version: u8)
    requires { at + 5 ≤ length b.old }
    ensures { b.new ≡ over b.old at (85 ∷ 81 ∷ c ∷ version ∷ 0 ∷ []) }
{
    b[at..at + 5].copy_from_slice(&[b'U', b'Q', c, version, 0]);
}

#[tactic(auto, unfolding(lists::specs::Tab::over))]
fn put_low(b: &mut [u8], at: usize, x: u64)
    requires { at + 1 ≤ length b.old }
    ensures { b.new ≡ over b.old at (x % 256 ∷ []) }
{
    b[at] = (x % 256) as u8;
}

// What stands before the head lines of the image.
fn put_shape(b: &mut [u8], g: Shape)
    requires { (known g.form ≡ true) × (8 + heads_at g.form ≤ length b.old) }
    ensures { b.new ≡ over b.old 8 (mark_bytes g) }
{
    if g.form == 4 {
        put_mark(b, 8, b'P', 1);
        b[13] = g.n;
        b[14] = g.t;
        return;
    }
    put_mark(b, 8, b'I', g.form);
    b[13] = g.n;
}

pub fn put_header(b: &mut [u8], v: Survey)
    requires { (known v.form ≡ true) × (head_start v.form 0 ≤ length b.old) }
    ensures { b.new ≡ over b.old 0 (head_of v) }
{
    let g = shape_said(v);
    put_mark(b, 0, b'S', 1);
    put_low(b, 5, v.t);
    put_low(b, 6, v.count);
    put_low(b, 7, v.count / 256);
    put_shape(b, g);
}
