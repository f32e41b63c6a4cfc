// Dequeue, step by step: D1 to D7 of thread k, #101's stores S3 and S6, and F3 and F6, the fences behind D3 and D6.

#![tactic(auto)]

ghost use Rattle.std.specs.Prelude.{◌≡◌, true, ℕ, ◌<◌, ◌≤◌, eqb};
ghost use Rattle.lists.specs.Find.{pick, both};
ghost use Rattle.image.specs.Form.{per_desk};
ghost use Rattle.machine.specs.Record.{thread};
ghost use Rattle.machine.specs.Dequeue.{step_d1, step_d2, step_d3, step_d4, step_d5, step_d6, step_d7, stores_index, step_s3, step_s6, step_f3, step_f6};
ghost use Rattle.dequeue.specs.Held.{NodeOrNone};

use answer::{Answer, Reply};
use hands::flushing::{fence_line, flush_line};
use hands::leaving::leave;
use hands::retiring::retire;
use machine::{Acted, Line, Machine, Thread, Touch};

// What the form decides: a where each desk has an index line, b elsewhere.
fn by_form(form: u8, a: u8, b: u8) -> u8
    ensures { result ≡ pick (per_desk form) a b }
{
    if form == 4 { a } else { b }
}

// Head's index as D1 reads it: where each desk has an index line, Head has none.
fn index_read(form: u8, x: u64) -> u64
    ensures { result ≡ pick (per_desk form) 0 x }
{
    if form == 4 { 0 } else { x }
}

// Whether Head, the node h with index x, is still what the thread read: the number alone where each desk has an index line.
fn is_still(form: u8, h: u8, x: u64, th: Thread) -> bool
    ensures { result ≡ both (eqb h th.head) (pick (per_desk form) true (eqb x th.index)) }
{
    h == th.head && (form == 4 || x == th.index)
}

// D1 Head read, number and index.
pub fn d1(m: Machine, k: usize) -> Acted
    requires { k < 8 }
    ensures { result ≡ step_d1 m k }
{
    let mut r = m;
    let mut th = r.threads[k];
    th.head = r.head;
    let x = index_read(r.form, r.heads[0]);
    th.index = x;
    Acted::moving(r, k, th, Machine::D2)
}

// D2 next of that node read: none goes to D3, or S3, else to D4.
pub fn d2(m: Machine, k: usize) -> Acted
    requires { (k < 8) × ((thread m k).head < 64) }
    ensures { result ≡ step_d2 m k }
{
    let mut r = m;
    let mut th = r.threads[k];
    let h = th.head as usize;
    let x = r.nodes[h].next;
    th.next = x;
    if x == 255 {
        let s = by_form(r.form, Machine::S3, Machine::D3);
        return Acted::moving(r, k, th, s);
    }
    Acted::moving(r, k, th, Machine::D4)
}

// The index of node x stored in the thread's own head line, and on to step s.
fn store_index(m: Machine, k: usize, x: usize, s: u8) -> Acted
    requires { (k < 8) × (x < 64) }
    ensures { result ≡ stores_index m k x s }
{
    let mut r = m;
    let v = r.nodes[x];
    r.heads[k] = v.index;
    Acted::going(r, k, s).touching(Touch::Store(Line::OfHead(k as u8)))
}

// S3 the index of the node found last.
pub fn s3(m: Machine, k: usize) -> Acted
    requires { (k < 8) × ((thread m k).head < 64) }
    ensures { result ≡ step_s3 m k }
{
    let th = m.threads[k];
    store_index(m, k, th.head as usize, Machine::D3)
}

// D3 line 0, or the thread's own, is flushed, and on to the fence.
pub fn d3(m: Machine, k: usize) -> Acted
    requires { (k < 8) × (m.t ≤ 8) }
    ensures { result ≡ step_d3 m k }
{
    let h = by_form(m.form, k as u8, 0);
    let line = Line::OfHead(h);
    let mut r = flush_line(m, k, line);
    Acted::going(r, k, Machine::F3).touching(Touch::Flush(k as u8, line))
}

// F3 the fence: what D3 flushed is persisted. Answer Empty.
pub fn f3(m: Machine, k: usize) -> Acted
    requires { (k < 8) × (m.n ≤ 64) × (m.t ≤ 8) }
    ensures { result ≡ step_f3 m k }
{
    let h = by_form(m.form, k as u8, 0);
    let line = Line::OfHead(h);
    let r = fence_line(m, k, line);
    let th = r.threads[k];
    let rest = leave(r, k, th.held);
    Acted {
        answer: Ok(Reply::Empty),
        machine: rest,
        touch: Touch::Fence(k as u8, line),
    }
}

// D4 if Head is still what was read, it becomes the next node as read at D2, with that node's index, go to D5; else to D1. Where each desk has an index line,
// Head is a node number alone, and no line is touched.
pub fn d4(m: Machine, k: usize) -> Acted
    requires { (k < 8) × ((thread m k).next < 64) }
    ensures { result ≡ step_d4 m k }
{
    let mut r = m;
    let th = r.threads[k];
    if !is_still(r.form, r.head, r.heads[0], th) {
        return Acted::going(r, k, Machine::D1);
    }
    if r.form == 4 {
        r.head = th.next;
        return Acted::going(r, k, Machine::D5);
    }
    let x = th.next as usize;
    let v = r.nodes[x];
    r.head = th.next;
    r.heads[0] = v.index;
    let line = Line::OfHead(0);
    Acted::going(r, k, Machine::D5).touching(Touch::Store(line))
}

// D5 item of the next node read.
pub fn d5(m: Machine, k: usize) -> Acted
    requires { (k < 8) × ((thread m k).next < 64) }
    ensures { result ≡ step_d5 m k }
{
    let mut r = m;
    let mut th = r.threads[k];
    let x = th.next as usize;
    let v = r.nodes[x];
    th.item = v.item;
    let s = by_form(r.form, Machine::S6, Machine::D6);
    Acted::moving(r, k, th, s)
}

// S6 the index of the new dummy.
pub fn s6(m: Machine, k: usize) -> Acted
    requires { (k < 8) × ((thread m k).next < 64) }
    ensures { result ≡ step_s6 m k }
{
    let th = m.threads[k];
    store_index(m, k, th.next as usize, Machine::D6)
}

// D6 line 0, or the thread's own, is flushed, and on to the fence.
pub fn d6(m: Machine, k: usize) -> Acted
    requires { (k < 8) × (m.t ≤ 8) }
    ensures { result ≡ step_d6 m k }
{
    let own = by_form(m.form, k as u8, 0);
    let line = Line::OfHead(own);
    let mut r = flush_line(m, k, line);
    Acted::going(r, k, Machine::F6).touching(Touch::Flush(k as u8, line))
}

// F6 the fence: what D6 flushed is persisted.
pub fn f6(m: Machine, k: usize) -> Acted
    requires { (k < 8) × (m.t ≤ 8) }
    ensures { result ≡ step_f6 m k }
{
    let own = by_form(m.form, k as u8, 0);
    let line = Line::OfHead(own);
    let mut r = fence_line(m, k, line);
    Acted::going(r, k, Machine::D7).touching(Touch::Fence(k as u8, line))
}

// D7 the node this thread held, if any, is retired; the old dummy is now held. Answer the item.
pub fn d7(m: Machine, k: usize) -> Acted
    requires { (k < 8) × (m.n ≤ 64) × (m.t ≤ 8) × NodeOrNone (thread m k).held }
    ensures { result ≡ step_d7 m k }
{
    let th = m.threads[k];
    if th.held == 255 {
        let rest = leave(m, k, th.head);
        return Acted::quiet(Ok(Reply::Item(th.item)), rest);
    }
    let r = retire(m, k, th.held as usize);
    let rest = leave(r, k, th.head);
    Acted::quiet(Ok(Reply::Item(th.item)), rest)
}
