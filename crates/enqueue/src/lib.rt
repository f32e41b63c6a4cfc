// Enqueue, step by step: A1 to A12 of thread k, and F10, the fence behind A10.

#![tactic(auto)]

ghost use Rattle.std.specs.Prelude.{◌≡◌, ℕ, ◌<◌, ◌≤◌, ◌^◌};
ghost use Rattle.machine.specs.Record.{thread};
ghost use Rattle.machine.specs.Enqueue.{step_a1, step_a2, step_a3, step_a4, step_a5, step_a6, step_a7, step_a8, step_a9, step_a10, step_a11, step_a12, step_f10};

use answer::{Answer, Reply};
use hands::flushing::{fence_line, flush_line};
use hands::leaving::leave;
use machine::{Acted, Line, Machine, Touch};

// A1 takes the first free node after the one last handed out, going round; if none is free the answer is Full.
pub fn a1(m: Machine, k: usize) -> Acted
    requires { (k < 8) × (m.n ≤ 64) × (m.free < 2 ^ m.n) × (m.last < m.n) }
    ensures { result ≡ step_a1 m k }
{
    let mut th = m.threads[k];
    let f = m.free;
    if f == 0 {
        let rest = leave(m, k, th.held);
        return Acted::quiet(Ok(Reply::Full), rest);
    }
    let i = bits::after(f, m.last as u32);
    let taken = bits::without_bit(f, i);
    let x = i as u8;
    let mut r = m;
    r.free = taken;
    r.last = x;
    th.node = x;
    Acted::moving(r, k, th, Machine::A2)
}

// A2 item stored.
pub fn a2(m: Machine, k: usize) -> Acted
    requires { (k < 8) × ((thread m k).node < 64) }
    ensures { result ≡ step_a2 m k }
{
    let mut r = m;
    let th = r.threads[k];
    let i = th.node as usize;
    r.nodes[i].item = th.item;
    let line = Line::OfNode(th.node);
    Acted::going(r, k, Machine::A3).touching(Touch::Store(line))
}

// A3 next set to none.
pub fn a3(m: Machine, k: usize) -> Acted
    requires { (k < 8) × ((thread m k).node < 64) }
    ensures { result ≡ step_a3 m k }
{
    let mut r = m;
    let th = r.threads[k];
    let i = th.node as usize;
    r.nodes[i].next = 255;
    Acted::going(r, k, Machine::A4)
}

// A4 linked set to 0.
pub fn a4(m: Machine, k: usize) -> Acted
    requires { (k < 8) × ((thread m k).node < 64) }
    ensures { result ≡ step_a4 m k }
{
    let mut r = m;
    let th = r.threads[k];
    let i = th.node as usize;
    r.nodes[i].linked = 0;
    let line = Line::OfNode(th.node);
    Acted::going(r, k, Machine::A5).touching(Touch::Store(line))
}

// A5 Tail read as t.
pub fn a5(m: Machine, k: usize) -> Acted
    requires { k < 8 }
    ensures { result ≡ step_a5 m k }
{
    let mut r = m;
    let mut th = r.threads[k];
    th.tail = r.tail;
    Acted::moving(r, k, th, Machine::A6)
}

// A6 next of t read: none goes to A7, else to A12.
pub fn a6(m: Machine, k: usize) -> Acted
    requires { (k < 8) × ((thread m k).tail < 64) }
    ensures { result ≡ step_a6 m k }
{
    let mut r = m;
    let th = r.threads[k];
    let t = th.tail as usize;
    let x = r.nodes[t].next;
    if x == 255 {
        return Acted::going(r, k, Machine::A7);
    }
    Acted::going(r, k, Machine::A12)
}

// A7 index set to t's index + 1; at the form's largest index the node becomes free again, and the answer is Worn out.
pub fn a7(m: Machine, k: usize) -> Acted
    requires { (k < 8) × (m.n ≤ 64) × ((thread m k).node < 64) × ((thread m k).tail < 64) }
    ensures { result ≡ step_a7 m k }
{
    let mut r = m;
    let th = r.threads[k];
    let i = th.node as usize;
    let t = th.tail as usize;
    let v = r.nodes[t];
    let top = image::top_of(r.form);
    if top <= v.index {
        let f = bits::with_bit(r.free, i as u32);
        r.free = f;
        let rest = leave(r, k, th.held);
        return Acted::quiet(Ok(Reply::WornOut), rest);
    }
    r.nodes[i].index = v.index + 1;
    let line = Line::OfNode(th.node);
    Acted::going(r, k, Machine::A8).touching(Touch::Store(line))
}

// A8 if t's next is none it becomes the new node, go to A9; else to A12.
pub fn a8(m: Machine, k: usize) -> Acted
    requires { (k < 8) × ((thread m k).tail < 64) }
    ensures { result ≡ step_a8 m k }
{
    let mut r = m;
    let th = r.threads[k];
    let t = th.tail as usize;
    let x = r.nodes[t].next;
    if x == 255 {
        r.nodes[t].next = th.node;
        return Acted::going(r, k, Machine::A9);
    }
    Acted::going(r, k, Machine::A12)
}

// A9 linked set to 1.
pub fn a9(m: Machine, k: usize) -> Acted
    requires { (k < 8) × ((thread m k).node < 64) }
    ensures { result ≡ step_a9 m k }
{
    let mut r = m;
    let th = r.threads[k];
    let i = th.node as usize;
    r.nodes[i].linked = 1;
    let line = Line::OfNode(th.node);
    Acted::going(r, k, Machine::A10).touching(Touch::Store(line))
}

// A10 the node's line is flushed, and on to the fence.
pub fn a10(m: Machine, k: usize) -> Acted
    requires { (k < 8) × (m.t ≤ 8) × ((thread m k).node < 64) }
    ensures { result ≡ step_a10 m k }
{
    let th = m.threads[k];
    let line = Line::OfNode(th.node);
    let mut r = flush_line(m, k, line);
    Acted::going(r, k, Machine::F10).touching(Touch::Flush(k as u8, line))
}

// F10 the fence: what A10 flushed is persisted.
pub fn f10(m: Machine, k: usize) -> Acted
    requires { (k < 8) × (m.t ≤ 8) × ((thread m k).node < 64) }
    ensures { result ≡ step_f10 m k }
{
    let th = m.threads[k];
    let line = Line::OfNode(th.node);
    let mut r = fence_line(m, k, line);
    Acted::going(r, k, Machine::A11).touching(Touch::Fence(k as u8, line))
}

// A11 Tail becomes the new node if it is still t. Answer Done.
pub fn a11(m: Machine, k: usize) -> Acted
    requires { (k < 8) × (m.n ≤ 64) }
    ensures { result ≡ step_a11 m k }
{
    let mut r = m;
    let th = r.threads[k];
    if r.tail == th.tail {
        r.tail = th.node;
        let rest = leave(r, k, th.held);
        return Acted::quiet(Ok(Reply::Done), rest);
    }
    let rest = leave(r, k, th.held);
    Acted::quiet(Ok(Reply::Done), rest)
}

// A12 Tail becomes t's next if it is still t. Back to A5.
pub fn a12(m: Machine, k: usize) -> Acted
    requires { (k < 8) × ((thread m k).tail < 64) }
    ensures { result ≡ step_a12 m k }
{
    let mut r = m;
    let th = r.threads[k];
    let t = th.tail as usize;
    let x = r.nodes[t].next;
    if r.tail == th.tail {
        r.tail = x;
    }
    Acted::going(r, k, Machine::A5)
}
