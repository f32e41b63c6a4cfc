// A schedule taken apart at its last start.
ghost use Rattle.std.specs.Prelude.{◌≡◌, true};
ghost use Rattle.answer.specs.Answers.{accepted};
ghost use Rattle.schedule.specs.Layout.{schedule_in};
ghost use Rattle.page.specs.Refusals.{page_answer};
ghost use Rattle.plainruns.specs.Playable.{Planned};

use crate::Plan;
use image::Shape;
use schedule::Schedule;

// Run once, as recorded; at each crash the last start is there.
pub fn plan_of(s: &[u8], d: Schedule) -> Plan
    requires { (accepted (page_answer s.now) ≡ true) × (d ≡ schedule_in s.now) }
    ensures { Planned s.now result }
{
    let g = d.image;
    let z = Shape {
        form: g.form,
        n: g.n,
        t: d.t,
    };
    let count = d.count as usize;
    let mut m = machine::start::start(g, d.t);
    let mut machine = m;
    let mut at = 0;
    for i in 0..count {
        let e = codec::event_at(s, z, i);
        let out = events::act(i as u32, m, e);
        m = out.machine;
        let crash = e.kind == 5;
        if crash {
            machine = m;
            at = i + 1;
        }
    }
    Plan {
        machine,
        at,
        since: count - at,
    }
}
