// Places of the tables that no node or thread has, and the machine that holds nothing.
// Each table stands behind a contract, so that no goal has its elements written out.
ghost use Rattle.std.specs.Prelude.{◌≡◌};
ghost use Rattle.machine.specs.Record.{blank_nodes, idle_threads, no_flushed, no_sets};
ghost use Rattle.machine.specs.Start.{blank_machine};

use super::{Machine, Node, Thread};
use image::{Content, no_contents, no_heads};

pub fn blank_nodes() -> [Node; 64]
    ensures { result ≡ blank_nodes }
{
    let node = Node {
        item: 0,
        next: Machine::NONE,
        linked: 0,
        index: 0,
        waits: 0,
    };
    [node; Machine::NODES]
}

// Threads without an operation that hold no node.
pub fn idle_threads() -> [Thread; 8]
    ensures { result ≡ idle_threads }
{
    [Thread::idle(Machine::NONE); Machine::THREADS]
}

// What the threads have flushed where none has.
pub fn no_flushed() -> [Content; 8]
    ensures { result ≡ no_flushed }
{
    let none = Content {
        index: 0,
        item: 0,
        linked: 0,
    };
    [none; Machine::THREADS]
}

// Sets without a thread: one for each thread or head line, or one for each node.
pub fn no_sets<const N: usize>() -> [u8; N]
    ensures { result ≡ no_sets N }
{
    [0; N]
}

pub fn blank_machine() -> Machine
    ensures { result ≡ blank_machine }
{
    let nodes = blank_nodes();
    let heads = no_heads();
    let kept_heads = no_heads();
    let kept = no_contents();
    let threads = idle_threads();
    let flushed = no_flushed();
    let late = no_sets();
    let over_heads = no_sets();
    let over = no_sets();
    Machine {
        form: 0,
        n: 0,
        t: 0,
        head: 0,
        heads,
        tail: 0,
        free: 0,
        nodes,
        kept_heads,
        kept,
        threads,
        last: 0,
        flushed,
        late,
        over_heads,
        over,
    }
}
