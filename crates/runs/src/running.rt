// The run of a schedule's events, with the rows of its lines.
ghost use Rattle.std.specs.Prelude.{◌≡◌, true};
ghost use Rattle.answer.specs.Answers.{accepted};
ghost use Rattle.schedule.specs.Layout.{schedule_in, schedule_answer};
ghost use Rattle.runs.specs.Going.{RunIs};

use crate::following::follow;
use crate::rows::opened_rows;
use answer::Refusal;
use endtable::row::Row;
use endtable::since::no_since;
use image::Shape;
use machine::Machine;
use onward::opened;
use schedule::Schedule;

// The machine that a schedule leaves, and the rows of its lines.
#[derive(Clone, Copy)]
pub struct Run {
    pub machine: Machine,
    pub rows: [Row; 72],
}

// Up to the first event that is refused. Beside the rows of the lines those since the flushes are kept, which nobody asks for in the end. The sets of the
// threads over each line are copied before an event, and not the machine: a fence asks for those before it.
pub fn run_events(s: &[u8], d: Schedule) -> Result<Run, Refusal>
    requires { (accepted (schedule_answer s.now) ≡ true) × (d ≡ schedule_in s.now) }
    ensures { RunIs s.now result }
{
    let g = opened(s, d);
    let mut m = g.machine;
    let mut rows = opened_rows(&m);
    let mut since = no_since();
    for i in 0..g.count {
        let z = Shape {
            form: g.form,
            n: g.n,
            t: g.t,
        };
        let e = codec::event_at(s, z, i);
        let heads = m.over_heads;
        let nodes = m.over;
        let out = events::act(i as u32, m, e);
        out.answer?;
        m = out.machine;
        if e.kind == 5 {
            rows = opened_rows(&m);
            continue;
        }
        follow(&m, out.touch, heads, nodes, &mut rows, &mut since);
    }
    Ok(Run { machine: m, rows })
}
