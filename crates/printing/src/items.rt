// The items that an image recovers to.
ghost use Rattle.std.specs.Prelude.{◌≡◌, ◌≤◌};
ghost use Rattle.image.specs.Form.{head_lines};
ghost use Rattle.image.specs.Layout.{image_shape};
ghost use Rattle.machine.specs.Laid.{zeros};
ghost use Rattle.page.specs.Printed.{items_of};
ghost use Rattle.printing.specs.Lines.{listed};

use image::Image;
use machine::queue::queue_of;

// Items in the first places of a table: a buffer with its length beside it, since the library has no heap.
#[derive(Clone, Copy)]
pub struct Items {
    pub count: usize,
    pub items: [u32; 64],
}

fn no_items() -> [u32; 64]
    ensures { result ≡ zeros }
{
    [0u32; 64]
}

// The recovered items in rising index.
pub fn items_of(g: Image) -> Items
    requires { (g.n ≤ 64) × (head_lines (image_shape g) ≤ 8) }
    ensures { result ≡ listed (items_of g) }
{
    let q = queue_of(g);
    let c = q.count;
    let mut items = no_items();
    for p in 0..c {
        let k = q.at[p] as usize;
        let v = g.nodes[k];
        items[p] = v.item;
    }
    Items { count: c, items }
}
