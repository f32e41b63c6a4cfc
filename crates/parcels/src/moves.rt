// What a step tells the desk, and what an enqueue's parcel is after it.
ghost use Rattle.std.specs.Prelude.{◌≡◌, eqb};
ghost use Rattle.lists.specs.Find.{both};
ghost use Rattle.parcels.specs.Parcel.{thread_at, node_at, said_news, news_of, is_of, has_index, is_taken_by, fresh as fresh_of, moved as moved_of};

use crate::{News, Parcel};
use answer::{Answer, Reply};
use machine::{Event, Machine, Node, Out, Thread};

fn thread_at(m: Machine, k: u8) -> Thread
    ensures { result ≡ thread_at m k }
{
    if 8 <= k {
        return Thread {
            index: 0,
            item: 0,
            step: 0,
            node: 0,
            tail: 0,
            head: 0,
            next: 0,
            held: 0,
        };
    }
    m.threads[k as usize]
}

pub fn node_at(m: Machine, i: u8) -> Node
    ensures { result ≡ node_at m i }
{
    if 64 <= i {
        return Node {
            index: 0,
            item: 0,
            next: 0,
            linked: 0,
            waits: 0,
        };
    }
    m.nodes[i as usize]
}

// By what a step of thread k answered.
fn said_news(k: u8, a: Answer) -> News
    ensures { result ≡ said_news k a }
{
    match a {
        Ok(Reply::Taken) => News::Nothing,
        Ok(Reply::Done) => News::Answered(k, Reply::Done),
        Ok(Reply::Full) => News::Answered(k, Reply::Full),
        Ok(Reply::WornOut) => News::Answered(k, Reply::WornOut),
        Ok(Reply::Item(_)) => News::Gave(k),
        Ok(Reply::Empty) => News::Answered(k, Reply::Empty),
        Err(_) => News::Nothing,
    }
}

// Whether thread k went from step x to step y.
fn is_gone(m: Machine, after: Machine, k: u8, x: u8, y: u8) -> bool
    ensures { result ≡ both (eqb (thread_at m k).step x) (eqb (thread_at after k).step y) }
{
    thread_at(m, k).step == x && thread_at(after, k).step == y
}

// What a step of thread k told: m is the machine before it, out what came of it.
#[tactic(auto, unfolding(crate::specs::Parcel::news_of))]
pub fn news_of(m: Machine, k: u8, out: Out) -> News
    ensures { result ≡ news_of m k out.answer out.machine }
{
    let v = thread_at(m, k);
    if is_gone(m, out.machine, k, Machine::A8, Machine::A9) {
        return News::Linked(k, v.node, node_at(m, v.node).index);
    }
    if is_gone(m, out.machine, k, Machine::D4, Machine::D5) {
        return News::Took(k, node_at(m, v.next).index);
    }
    said_news(k, out.answer)
}

// Event i begins an enqueue.
pub fn fresh(i: u16, e: Event) -> Parcel
    ensures { result ≡ fresh_of i e }
{
    Parcel {
        index: 0,
        item: e.item,
        began: i,
        thread: e.number,
        node: Machine::NONE,
        said: Reply::Taken,
        taker: None,
        handed: false,
    }
}

fn is_of(p: Parcel, k: u8) -> bool
    ensures { result ≡ is_of k p }
{
    p.thread == k && matches!(p.said, Reply::Taken)
}

fn has_index(p: Parcel, x: u64) -> bool
    ensures { result ≡ has_index x p }
{
    p.node < 64 && p.index == x
}

fn is_taken_by(p: Parcel, k: u8) -> bool
    ensures { result ≡ is_taken_by k p }
{
    match p.taker {
        Some(u) => u == k,
        None => false,
    }
}

// A link or an answer is the thread's own operation's, a node taken that of the index, an item answered that of the thread's taking.
#[tactic(auto, unfolding(crate::specs::Parcel::moved))]
pub fn moved(w: News, p: Parcel) -> Parcel
    ensures { result ≡ moved_of w p }
{
    match w {
        News::Linked(k, node, index) if is_of(p, k) => Parcel { node, index, ..p },
        News::Answered(k, said) if is_of(p, k) => Parcel { said, ..p },
        News::Took(k, index) if has_index(p, index) => Parcel {
            taker: Some(k),
            ..p
        },
        News::Gave(k) if is_taken_by(p, k) => Parcel { handed: true, ..p },
        _ => p,
    }
}
