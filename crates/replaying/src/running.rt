// The events of a probe file in turn.
ghost use Rattle.std.specs.Prelude.{◌≡◌, true};
ghost use Rattle.answer.specs.Answers.{accepted, given};
ghost use Rattle.schedule.specs.Layout.{schedule_in};
ghost use Rattle.replaying.specs.Probe.{probe_answer};
ghost use Rattle.replaying.specs.Replay.{replay_answer, replay_of, difference_in};

use crate::Difference;
use crate::asking::{answer_to, note};
use crate::reading::probed_at;
use answer::Refusal;
use image::Shape;
use schedule::Schedule;

// Up to the first event that is refused; past one that differs, since a later refusal refuses the file.
pub fn replay_events(s: &[u8], d: Schedule) -> Result<Option<Difference>, Refusal>
    requires { (accepted (probe_answer s.now) ≡ true) × (d ≡ schedule_in s.now) }
    ensures { result ≡ given (replay_answer s.now) (difference_in (replay_of s.now)) }
{
    let g = d.image;
    let z = Shape {
        form: g.form,
        n: g.n,
        t: d.t,
    };
    let mut m = machine::start::start(g, d.t);
    let mut known = None;
    for i in 0..d.count {
        let x = probed_at(s, z, i as usize);
        let out = events::act(i as u32, m, x.event);
        answer_to(i as u32, x, out.answer)?;
        known = note(known, i as u32, x, out.answer);
        m = out.machine;
    }
    Ok(known)
}
