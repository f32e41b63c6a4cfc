// A run with picks added, one event after the other. No event is refused.
ghost use Rattle.std.specs.Prelude.{◌≡◌, ◌<◌, ◌≤◌};
ghost use Rattle.machine.specs.Line.{shape_of, line_count};
ghost use Rattle.machine.specs.Stage.{stage};
ghost use Rattle.machine.specs.Event as deeds;
ghost use Rattle.lawful.specs.Added.{write_back};
ghost use Rattle.steps.specs.Ready.{Ready};
ghost use Rattle.plainproof.specs.Plain.{lines_in, start_machine, since_count, event_since, played, backed, played_at};
ghost use Rattle.plainruns.specs.Playable.{Small, Playable, Planned};

use crate::Plan;
use hands::persisting::persist_line;
use image::Shape;
use machine::lines::line_at;
use machine::{Event, Machine};

fn moved(m: Machine, k: usize) -> Machine
    requires { Ready m k }
    ensures { result ≡ (deeds.stepped m k (stage m k)).machine }
{
    steps::one_step(m, k).machine
}

// Line j written back, clean or not.
fn written_back(m: Machine, j: u8) -> Machine
    requires { Small m × (j < line_count (shape_of m)) }
    ensures { result ≡ played m (write_back j) }
{
    let z = Shape {
        form: m.form,
        n: m.n,
        t: m.t,
    };
    persist_line(m, line_at(z, j))
}

// One event.
fn play(m: Machine, e: Event) -> Machine
    requires { Playable m e }
    ensures { result ≡ played m e }
{
    match e.kind {
        1 => steps::begin(m, e.number as usize, Machine::A1, e.item),
        2 => steps::begin(m, e.number as usize, Machine::D1, 0),
        3 => moved(m, e.number as usize),
        4 => written_back(m, e.number),
        _ => m,
    }
}

// The write-backs picked for moment r, of the first n lines.
fn back(m: Machine, picks: [u8; 6], n: usize, r: u8) -> Machine
    requires { Small m × (n ≤ line_count (shape_of m)) × (n ≤ 6) × (r ≤ 12) }
    ensures { result ≡ backed picks r m n }
{
    let mut x = m;
    for j in 0..n {
        if picks[j] == r + 1 {
            x = written_back(x, j as u8);
        }
    }
    x
}

// The run with the picks added, from the last start to the schedule's end; n is how many lines there are.
pub fn run_picked(s: &[u8], p: Plan, picks: [u8; 6], n: usize) -> Machine
    requires { Planned s.now p × (n ≡ lines_in s.now) × (n ≤ 6) × (p.since ≤ 12) }
    ensures { result ≡ played_at picks (lines_in s.now) (start_machine s.now) (event_since s.now) (since_count s.now) }
{
    let start = p.machine;
    let z = Shape {
        form: start.form,
        n: start.n,
        t: start.t,
    };
    let mut m = back(start, picks, n, 0);
    for i in 0..p.since {
        let e = codec::event_at(s, z, i + p.at);
        m = back(play(m, e), picks, n, i as u8 + 1);
    }
    m
}
