// Recovery, and a start from an image and T.
ghost use Rattle.std.specs.Prelude.{◌≡◌, ◌≤◌, ◌<◌};
ghost use Rattle.answer.specs.Answers.{given};
ghost use Rattle.image.specs.Form.{head_lines};
ghost use Rattle.image.specs.Layout.{image_shape};
ghost use Rattle.machine.specs.Start.{queue_of, start_heads, start_node, start_of, start_from};
ghost use Rattle.machine.specs.Laid.{laid, start_nodes, start_kept, start_free};

use super::blank::{blank_nodes, idle_threads, no_flushed, no_sets};
use super::queue::{Queue, queue_of};
use super::{Machine, Node};
use answer::Refusal;
use image::{
    Content, Image, dummy_of, fitting_of, head_lines, head_of, is_recovered, no_contents, no_heads,
    shape_of, sound_of, threads_fit,
};

// Node i after a start whose dummy is d: the cached copy is read anew, the dummy's cached index becomes the head index.
fn node_of(g: &Image, d: u8, q: &Queue, i: usize) -> Node
    requires { (g.now.n ≤ 64) × (head_lines (image_shape g.now) ≤ 8) × (i < 64) × (q.now ≡ laid (queue_of g.now)) }
    ensures { result ≡ start_node g.now d (queue_of g.now) i }
{
    let v = g.nodes[i];
    let next = q.behind(d, i);
    let index = if i == d as usize {
        head_of(g.heads, g.shape())
    } else {
        v.index
    };
    Node {
        item: v.item,
        next,
        linked: v.linked,
        index,
        waits: 0,
    }
}

fn nodes_of(g: &Image, d: u8, q: &Queue) -> [Node; 64]
    requires { (g.now.n ≤ 64) × (head_lines (image_shape g.now) ≤ 8) × (q.now ≡ laid (queue_of g.now)) }
    ensures { result ≡ start_nodes g.now d (queue_of g.now) g.now.n }
{
    let mut nodes = blank_nodes();
    for i in 0..g.n as usize {
        nodes[i] = node_of(g, d, q, i);
    }
    nodes
}

// The indices of the head lines as read: the persisted ones stay, the cached ones are the same.
fn heads_of(g: &Image) -> [u64; 8]
    requires { head_lines (image_shape g.now) ≤ 8 }
    ensures { result ≡ start_heads g.now }
{
    let lines = head_lines(g.shape());
    let mut heads = no_heads();
    heads[..lines].copy_from_slice(&g.heads[..lines]);
    heads
}

// The persisted copies stay.
fn kept_of(g: &Image) -> [Content; 64]
    requires { g.now.n ≤ 64 }
    ensures { result ≡ start_kept g.now g.now.n }
{
    let n = g.n as usize;
    let mut kept = no_contents();
    kept[..n].copy_from_slice(&g.nodes[..n]);
    kept
}

// All nodes but the dummy and the recovered ones are free.
fn free_of(g: &Image, d: u8) -> u64
    requires { (g.now.n ≤ 64) × (head_lines (image_shape g.now) ≤ 8) }
    ensures { result ≡ start_free g.now d g.now.n }
{
    let h = head_of(g.heads, g.shape());
    let mut w = 0;
    for i in 0..g.n as usize {
        if i != d as usize && !is_recovered(g.nodes[i], h) {
            w += 1u64 << i;
        }
    }
    w
}

// The start of an image that is sound, with T threads.
pub fn start(g: Image, t: u8) -> Machine
    requires { (g.n ≤ 64) × (head_lines (image_shape g) ≤ 8) }
    ensures { result ≡ start_of g t }
{
    let d = dummy_of(g) as u8;
    let q = queue_of(g);
    let tail = q.last(d);
    let free = free_of(&g, d);
    let nodes = nodes_of(&g, d, &q);
    let heads = heads_of(&g);
    let kept_heads = heads;
    let kept = kept_of(&g);
    let threads = idle_threads();
    let flushed = no_flushed();
    let late = no_sets();
    let over_heads = no_sets();
    let over = no_sets();
    Machine {
        form: g.form,
        n: g.n,
        t,
        head: d,
        heads,
        tail,
        free,
        nodes,
        kept_heads,
        kept,
        threads,
        last: d,
        flushed,
        late,
        over_heads,
        over,
    }
}

// A start from contents and T, tested for 4, 2, 3, 4, 6, 7, 8, 20. Public: every input is answered.
pub fn start_from(g: Image, t: u8) -> Result<Machine, Refusal>
    ensures { result ≡ given (start_from g t).answer (start_from g t).machine }
{
    if !threads_fit(t) {
        return Err(Refusal::Threads);
    }
    shape_of(g.shape(), t)?;
    sound_of(g)?;
    fitting_of(g)?;
    Ok(start(g, t))
}
