// A schedule, or another file with its layout, read up to its events.
ghost use Rattle.std.specs.Prelude.{◌≡◌, ◌≤◌};
ghost use Rattle.answer.specs.Answers.{given};
ghost use Rattle.schedule.specs.Layout.{file_answer, schedule_answer, read_by, read_schedule};

use crate::bytes::{half_at, is_marked};
use crate::images::image_in;
use crate::reading::check_part;
use answer::{Answer, Refusal};
use image::threads_fit;
use machine::Machine;
use schedule::Schedule;

// What is wrong, up to its events, with a file of the mark "UQ" and z that has w bytes an event. It builds none.
pub fn check_file(s: &[u8], z: u8, w: usize) -> Answer
    requires { w ≤ 12 }
    ensures { result ≡ file_answer z w s.now }
{
    if s.len() < 8 {
        return Err(Refusal::Length);
    }
    if !is_marked(s, 85, 81, z, 1) {
        return Err(Refusal::Mark);
    }
    let t = s[5];
    if !threads_fit(t) {
        return Err(Refusal::Threads);
    }
    let count = half_at(s, 6);
    if Machine::EVENTS < count {
        return Err(Refusal::Events);
    }
    check_part(&s[8..], t, (count as usize) * w)
}

pub fn check_schedule(s: &[u8]) -> Answer
    ensures { result ≡ schedule_answer s.now }
{
    check_file(s, 83, 6)
}

// The file up to its events, or what is wrong.
pub fn open_file(s: &[u8], z: u8, w: usize) -> Result<Schedule, Refusal>
    requires { w ≤ 12 }
    ensures { result ≡ given (read_by (file_answer z w s.now) s.now).answer (read_by (file_answer z w s.now) s.now).schedule }
{
    check_file(s, z, w)?;
    let count = half_at(s, 6);
    let image = image_in(&s[8..]);
    Ok(Schedule {
        t: s[5],
        count,
        image,
    })
}

pub fn open_schedule(s: &[u8]) -> Result<Schedule, Refusal>
    ensures { result ≡ given (read_schedule s.now).answer (read_schedule s.now).schedule }
{
    open_file(s, 83, 6)
}
