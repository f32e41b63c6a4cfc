// The machine one step at a time, by value: a begin, and one step by its number. Each function is equal to its definition in the crate `machine`.

#![tactic(auto)]

ghost use Rattle.std.specs.Prelude.{◌≡◌, ℕ, ◌<◌, true, false};
ghost use Rattle.machine.specs.Record.{thread};
ghost use Rattle.machine.specs.Stage.{stage};
ghost use Rattle.machine.specs.Event.{begun, stepped};
ghost use Rattle.steps.specs.Ready.{Ready};
ghost use Rattle.steps.specs.Numbers.{of_enqueue};

use answer::Reply;
use machine::{Acted, Machine, Thread, Touch};

// Thread k begins at step s with item v; it has read nothing.
pub fn begin(m: Machine, k: usize, s: u8, v: u32) -> Machine
    requires { k < 8 }
    ensures { result ≡ begun m k s v }
{
    let mut r = m;
    let th = r.threads[k];
    r.threads[k] = Thread {
        step: s,
        node: 255,
        tail: 255,
        head: 255,
        index: 0,
        next: 255,
        item: v,
        held: th.held,
    };
    r
}

// Whether a step number is one of an enqueue, or none: A1 to A12, or F10.
fn is_of_enqueue(s: u8) -> bool
    ensures { result ≡ of_enqueue s }
{
    if s <= Machine::A12 {
        return true;
    }
    s == Machine::F10
}

// One step of an enqueue, by its step number; a thread without an operation stays as it is.
fn enqueue_step(m: Machine, k: usize) -> Acted
    requires { Ready m k × (of_enqueue (thread m k).step ≡ true) }
    ensures { result ≡ stepped m k (stage m k) }
{
    let threads = m.threads;
    let th = threads[k];
    let s = th.step;
    match s {
        Machine::A1 => enqueue::a1(m, k),
        Machine::A2 => enqueue::a2(m, k),
        Machine::A3 => enqueue::a3(m, k),
        Machine::A4 => enqueue::a4(m, k),
        Machine::A5 => enqueue::a5(m, k),
        Machine::A6 => enqueue::a6(m, k),
        Machine::A7 => enqueue::a7(m, k),
        Machine::A8 => enqueue::a8(m, k),
        Machine::A9 => enqueue::a9(m, k),
        Machine::A10 => enqueue::a10(m, k),
        Machine::A11 => enqueue::a11(m, k),
        Machine::A12 => enqueue::a12(m, k),
        Machine::F10 => enqueue::f10(m, k),
        0 | 13..=21 | 23..=255 => Acted {
            answer: Ok(Reply::Taken),
            machine: m,
            touch: Touch::Nothing,
        },
    }
}

// One step of a dequeue, by its step number; a number that is no step leaves the machine as it is.
fn dequeue_step(m: Machine, k: usize) -> Acted
    requires { Ready m k × (of_enqueue (thread m k).step ≡ false) }
    ensures { result ≡ stepped m k (stage m k) }
{
    let threads = m.threads;
    let th = threads[k];
    let s = th.step;
    match s {
        Machine::D1 => dequeue::d1(m, k),
        Machine::D2 => dequeue::d2(m, k),
        Machine::D3 => dequeue::d3(m, k),
        Machine::D4 => dequeue::d4(m, k),
        Machine::D5 => dequeue::d5(m, k),
        Machine::D6 => dequeue::d6(m, k),
        Machine::D7 => dequeue::d7(m, k),
        Machine::S3 => dequeue::s3(m, k),
        Machine::S6 => dequeue::s6(m, k),
        Machine::F3 => dequeue::f3(m, k),
        Machine::F6 => dequeue::f6(m, k),
        0..=12 | 22 | 25..=255 => Acted {
            answer: Ok(Reply::Taken),
            machine: m,
            touch: Touch::Nothing,
        },
    }
}

// Thread k moves by one step.
pub fn one_step(m: Machine, k: usize) -> Acted
    requires { Ready m k }
    ensures { result ≡ stepped m k (stage m k) }
{
    let threads = m.threads;
    let th = threads[k];
    if is_of_enqueue(th.step) {
        return enqueue_step(m, k);
    }
    dequeue_step(m, k)
}
