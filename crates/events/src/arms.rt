// An event on a record that is within its ranges. p is the place that a refusal names.
// Each arm hands on the outcome itself and no Result of it, and takes the threads before it asks for one of them: of a record that goes by value each of the
// two would be a copy more, at every event (docs/PERFORMANCE.md).
ghost use Rattle.std.specs.Prelude.{◌≡◌, true};
ghost use Rattle.image.specs.Form.{own_threads};
ghost use Rattle.machine.specs.Event.{enqueues, dequeues, steps, writes_back, crashes, event_at};
ghost use Rattle.machine.specs.Line.{persisted};
ghost use Rattle.machine.specs.Range.{in_range};
ghost use Rattle.events.specs.Arms.{event_by};

use crate::clean::is_clean;
use answer::{Refusal, Reply};
use hands::persisting::persist_line;
use image::{Image, Shape, head_lines};
use machine::lines::line_at;
use machine::{Acted, Event, Machine, Touch};

// T as an image of this shape holds it.
fn held_threads(z: Shape) -> u8
    ensures { result ≡ own_threads z }
{
    if z.form == 4 { z.t } else { 0 }
}

// The persisted copies, as an image.
pub fn kept_image(m: Machine) -> Image
    ensures { result ≡ persisted m }
{
    Image {
        heads: m.kept_heads,
        nodes: m.kept,
        form: m.form,
        n: m.n,
        t: held_threads(m.shape()),
    }
}

// 1: begins an enqueue of the item on the thread numbered.
fn enqueue(p: u32, m: Machine, e: Event) -> Acted
    requires { in_range m ≡ true }
    ensures { result ≡ event_by p m e enqueues }
{
    if m.t <= e.number {
        return Acted::quiet(Err(Refusal::Number(p)), m);
    }
    let k = e.number as usize;
    let threads = m.threads;
    if threads[k].step != 0 {
        return Acted::quiet(Err(Refusal::Busy(p)), m);
    }
    let machine = steps::begin(m, k, Machine::A1, e.item);
    Acted {
        answer: Ok(Reply::Taken),
        machine,
        touch: Touch::Nothing,
    }
}

// 2: begins a dequeue on the thread numbered.
fn dequeue(p: u32, m: Machine, e: Event) -> Acted
    requires { in_range m ≡ true }
    ensures { result ≡ event_by p m e dequeues }
{
    if m.t <= e.number {
        return Acted::quiet(Err(Refusal::Number(p)), m);
    }
    if e.item != 0 {
        return Acted::quiet(Err(Refusal::NotZero(p)), m);
    }
    let k = e.number as usize;
    let threads = m.threads;
    if threads[k].step != 0 {
        return Acted::quiet(Err(Refusal::Busy(p)), m);
    }
    let machine = steps::begin(m, k, Machine::D1, 0);
    Acted {
        answer: Ok(Reply::Taken),
        machine,
        touch: Touch::Nothing,
    }
}

// 3: moves the thread numbered by one step.
fn step(p: u32, m: Machine, e: Event) -> Acted
    requires { in_range m ≡ true }
    ensures { result ≡ event_by p m e steps }
{
    if m.t <= e.number {
        return Acted::quiet(Err(Refusal::Number(p)), m);
    }
    if e.item != 0 {
        return Acted::quiet(Err(Refusal::NotZero(p)), m);
    }
    let k = e.number as usize;
    let threads = m.threads;
    if threads[k].step == 0 {
        return Acted::quiet(Err(Refusal::Idle(p)), m);
    }
    steps::one_step(m, k)
}

// 4: writes back the line numbered.
fn write_back(p: u32, m: Machine, e: Event) -> Acted
    requires { in_range m ≡ true }
    ensures { result ≡ event_by p m e writes_back }
{
    let z = Shape {
        form: m.form,
        n: m.n,
        t: m.t,
    };
    let lines = head_lines(z) + m.n as usize;
    if lines <= e.number as usize {
        return Acted::quiet(Err(Refusal::Number(p)), m);
    }
    if e.item != 0 {
        return Acted::quiet(Err(Refusal::NotZero(p)), m);
    }
    let line = line_at(z, e.number);
    if is_clean(m, line) {
        return Acted::quiet(Err(Refusal::Clean(p)), m);
    }
    let machine = persist_line(m, line);
    Acted {
        answer: Ok(Reply::Taken),
        machine,
        touch: Touch::Persist(line),
    }
}

// 5: a crash followed by recovery.
fn crash(p: u32, m: Machine, e: Event) -> Acted
    requires { in_range m ≡ true }
    ensures { result ≡ event_by p m e crashes }
{
    if e.number != 0 {
        return Acted::quiet(Err(Refusal::NotZero(p)), m);
    }
    if e.item != 0 {
        return Acted::quiet(Err(Refusal::NotZero(p)), m);
    }
    let g = kept_image(m);
    if let Err(refusal) = image::startable_of(g) {
        return Acted::quiet(Err(refusal), m);
    }
    let machine = machine::start::start(g, m.t);
    Acted {
        answer: Ok(Reply::Taken),
        machine,
        touch: Touch::Nothing,
    }
}

// The kind decides. It is a byte of a schedule or of a probe's file, so it may be none of the five. A refused event changes nothing: the machine is handed
// back as it was.
pub fn act(p: u32, m: Machine, e: Event) -> Acted
    requires { in_range m ≡ true }
    ensures { result ≡ event_at p m e }
{
    match e.kind {
        1 => enqueue(p, m, e),
        2 => dequeue(p, m, e),
        3 => step(p, m, e),
        4 => write_back(p, m, e),
        5 => crash(p, m, e),
        0 | 6..=255 => Acted {
            answer: Err(Refusal::Kind(p)),
            machine: m,
            touch: Touch::Nothing,
        },
    }
}
