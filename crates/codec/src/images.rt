// An image as bytes, read and written.
ghost use Rattle.std.specs.Prelude.{◌≡◌, true, ◌≤◌, length};
ghost use Rattle.lists.specs.Tab.{over};
ghost use Rattle.image.specs.Form.{known, head_lines, image_size};
ghost use Rattle.image.specs.Layout.{image_shape, image_bytes, shape_in, image_in};
ghost use Rattle.codec.specs.Parts.{Lies};

use crate::bytes::shape_in;
use crate::lines::{heads_in, put_head};
use crate::nodes::{nodes_in, put_nodes};
use image::Image;

// What the bytes hold, where they are long enough.
pub fn image_in(s: &[u8]) -> Image
    requires { Lies s.now (shape_in s.now) }
    ensures { result ≡ image_in s.now }
{
    let z = shape_in(s);
    let heads = heads_in(s, z);
    let nodes = nodes_in(s, z);
    Image {
        heads,
        nodes,
        form: z.form,
        n: z.n,
        t: z.t,
    }
}

// The image in the buffer's first bytes; the bytes after them stay.
pub fn put_image(b: &mut [u8], g: Image)
    requires { (known g.form ≡ true) × ((g.n ≤ 64) × ((head_lines (image_shape g) ≤ 8) × (image_size (image_shape g) ≤ length b.old))) }
    ensures { b.new ≡ over b.old 0 (image_bytes g) }
{
    let z = g.shape();
    put_head(b, z, g.heads);
    put_nodes(b, z, g.nodes);
}
