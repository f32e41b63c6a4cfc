// The run of a schedule as a fold: opened once, then one event forward at a time.

#![tactic(auto)]

ghost use Rattle.std.specs.Prelude.{◌≡◌, true, ◌<◌};
ghost use Rattle.answer.specs.Answers.{accepted};
ghost use Rattle.schedule.specs.Layout.{schedule_in, schedule_answer};
ghost use Rattle.schedule.specs.Running.{Reached, opened_run, forward_run};

use answer::Reply;
use image::Shape;
use machine::{Event, Touch};
use schedule::{Running, Schedule};

// Before the first event of the schedule d that the bytes are: the start of its image.
pub fn opened(s: &[u8], d: Schedule) -> Running
    requires { (accepted (schedule_answer s.now) ≡ true) × (d ≡ schedule_in s.now) }
    ensures { result ≡ opened_run s.now }
{
    let t = s[5];
    let g = d.image;
    let machine = machine::start::start(g, t);
    Running {
        t,
        n: g.n,
        form: g.form,
        count: d.count as usize,
        place: 0,
        answer: Ok(Reply::Taken),
        machine,
        event: Event {
            kind: 0,
            number: 0,
            item: 0,
        },
        touch: Touch::Nothing,
    }
}

// The next event, refused or taken.
pub fn forward(s: &[u8], g: Running) -> Running
    requires { Reached s.now g × (g.place < g.count) }
    ensures { result ≡ forward_run s.now g }
{
    let i = g.place;
    let t = s[5];
    let z = Shape {
        form: g.form,
        n: g.n,
        t,
    };
    let event = codec::event_at(s, z, i);
    let m = g.machine;
    let out = events::act(i as u32, m, event);
    let answer = out.answer;
    let machine = out.machine;
    let touch = out.touch;
    Running {
        t: g.t,
        n: g.n,
        form: g.form,
        count: g.count,
        place: i + 1,
        answer,
        machine,
        event,
        touch,
    }
}
