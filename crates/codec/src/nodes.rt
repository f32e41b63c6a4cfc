// The nodes of an image, read and written.
ghost use Rattle.std.specs.Prelude.{◌≡◌, true, ◌+◌, ◌*◌, ◌≤◌, length};
ghost use Rattle.lists.specs.Tab.{over};
ghost use Rattle.image.specs.Form.{known, node_size, header_size, image_size};
ghost use Rattle.image.specs.Layout.{node_bytes, body_bytes, read_content, read_nodes};

use crate::bytes::{index_in, put_index, put_word, word_at};
use image::{Content, Shape, place_of, width_of};

fn content_at(s: &[u8], form: u8, at: usize) -> Content
    requires { (known form ≡ true) × (at + node_size form ≤ length s.now) }
    ensures { result ≡ read_content form s.now at }
{
    let w = width_of(form);
    let index = index_in(s, form, at + 1);
    let item = word_at(s, at + 1 + w);
    Content {
        index,
        item,
        linked: s[at],
    }
}

// The contents of the nodes; those beyond are blank.
pub fn nodes_in(s: &[u8], z: Shape) -> [Content; 64]
    requires { (known z.form ≡ true) × ((z.n ≤ 64) × (image_size z ≤ length s.now)) }
    ensures { result ≡ read_nodes z s.now }
{
    let form = z.form;
    let n = z.n as usize;
    let mut nodes = image::no_contents();
    for i in 0..n {
        let at = place_of(z, i);
        nodes[i] = content_at(s, form, at);
    }
    nodes
}

// A node's bytes at a place.
pub fn put_content(b: &mut [u8], form: u8, at: usize, v: Content)
    requires { (known form ≡ true) × (at + node_size form ≤ length b.old) }
    ensures { b.new ≡ over b.old at (node_bytes form v) }
{
    let w = width_of(form);
    b[at] = v.linked;
    put_index(b, form, at + 1, v.index);
    put_word(b, at + 1 + w, v.item as u64);
}

pub fn put_nodes(b: &mut [u8], z: Shape, nodes: [Content; 64])
    requires { (known z.form ≡ true) × ((z.n ≤ 64) × (image_size z ≤ length b.old)) }
    ensures { b.new ≡ over b.old (header_size z) (body_bytes z.form nodes z.n) }
{
    let form = z.form;
    let n = z.n as usize;
    for i in 0..n {
        let at = place_of(z, i);
        put_content(b, form, at, nodes[i]);
    }
}
