// The head of an image, read and written: the mark, the version, N, T where it is held, and the indices of the head lines.
ghost use Rattle.std.specs.Prelude.{◌≡◌, true, [], ◌∷◌, ◌+◌, ◌*◌, ◌≤◌, length, get_or};
ghost use Rattle.lists.specs.Tab.{over};
ghost use Rattle.image.specs.Form.{known, width_of, heads_at, head_lines, header_size};
ghost use Rattle.image.specs.Layout.{mark_bytes, head_bytes, read_heads};

use crate::bytes::{index_in, put_index};
use image::{Shape, head_lines};

// Where the index of head line k begins.
fn line_place(form: u8, k: usize) -> usize
    requires { (known form ≡ true) × (k ≤ 8) }
    ensures { result ≡ heads_at form + k * width_of form }
{
    if form == 2 {
        return 6 + k * 8;
    }
    if form == 4 {
        return 7 + k * 4;
    }
    6 + k * 4
}

// The indices of the head lines; those beyond are blank.
pub fn heads_in(s: &[u8], z: Shape) -> [u64; 8]
    requires { (known z.form ≡ true) × ((head_lines z ≤ 8) × (header_size z ≤ length s.now)) }
    ensures { result ≡ read_heads z s.now }
{
    let form = z.form;
    let count = head_lines(z);
    let mut heads = image::no_heads();
    for k in 0..count {
        let at = line_place(form, k);
        heads[k] = index_in(s, form, at);
    }
    heads
}

// A mark of the third letter x, version v, N.
fn put_six(b: &mut [u8], x: u8, v: u8, n: u8)
    requires { 6 ≤ length b.old }
    ensures { b.new ≡ over b.old 0 (85 ∷ 81 ∷ x ∷ v ∷ 0 ∷ n ∷ []) }
{
    b[0] = 85;
    b[1] = 81;
    b[2] = x;
    b[3] = v;
    b[4] = 0;
    b[5] = n;
}

fn put_mark(b: &mut [u8], z: Shape)
    requires { (known z.form ≡ true) × (heads_at z.form ≤ length b.old) }
    ensures { b.new ≡ over b.old 0 (mark_bytes z) }
{
    let form = z.form;
    if form == 4 {
        put_six(b, 80, 1, z.n);
        b[6] = z.t;
        return;
    }
    put_six(b, 73, form, z.n);
}

// The mark and what follows it, then the indices of the head lines.
pub fn put_head(b: &mut [u8], z: Shape, heads: [u64; 8])
    requires { (known z.form ≡ true) × ((head_lines z ≤ 8) × (header_size z ≤ length b.old)) }
    ensures { b.new ≡ over b.old 0 (head_bytes z (λ k. get_or heads k 0)) }
{
    let form = z.form;
    let count = head_lines(z);
    put_mark(b, z);
    for k in 0..count {
        let at = line_place(form, k);
        put_index(b, form, at, heads[k]);
    }
}
