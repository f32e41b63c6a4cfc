// Images and schedules, read from bytes and written to them.
// Public calls: read_image, write_image, read_schedule, event_of; each answers with a number and a place. What else stands here is for the crates above.

#![tactic(auto)]

mod bytes;
mod events;
mod images;
mod lines;
mod nodes;
mod opening;
mod reading;
pub mod sound;
mod writing;

ghost use Rattle.std.specs.Prelude.{◌≡◌};
ghost use Rattle.answer.specs.Answers.{given};
ghost use Rattle.image.specs.Refusals.{read_image};
ghost use Rattle.schedule.specs.Layout.{read_schedule};
ghost use Rattle.codec.specs.Parts.{event_asked, event_of};

use answer::Refusal;
pub use bytes::{form_in, is_marked, long_at, own_threads, put_index, put_word, shape_in, word_at};
pub use events::{event_at, event_from};
use image::{Image, Shape};
pub use images::{image_in, put_image};
use machine::Event;
pub use nodes::put_content;
pub use opening::{check_file, check_schedule, open_file, open_schedule};
pub use reading::{check_alone, check_part, read_part, shape_part};
use schedule::Schedule;
pub use writing::write_image;

// The image that the bytes are, or what is wrong with them.
pub fn read_image(s: &[u8]) -> Result<Image, Refusal>
    ensures { result ≡ given (read_image s.now).answer (read_image s.now).image }
{
    read_part(s, own_threads(s), 0)
}

// The schedule that the bytes are, up to its events, or what is wrong with them.
pub fn read_schedule(s: &[u8]) -> Result<Schedule, Refusal>
    ensures { result ≡ given (read_schedule s.now).answer (read_schedule s.now).schedule }
{
    open_schedule(s)
}

// Event i of the schedule that the bytes are, or what is wrong with them; 16 where it has no event of that number.
pub fn event_of(s: &[u8], i: usize) -> Result<Event, Refusal>
    ensures { result ≡ given (event_asked s.now i) (event_of s.now i) }
{
    let d = open_schedule(s)?;
    let count = d.count as usize;
    if count <= i {
        return Err(Refusal::NoEnding);
    }
    let g = d.image;
    let z = Shape {
        form: g.form,
        n: g.n,
        t: d.t,
    };
    Ok(event_at(s, z, i))
}
