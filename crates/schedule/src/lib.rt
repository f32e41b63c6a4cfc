// A schedule: T, the event count and the image it starts from. Its events stand behind the image, six bytes each. And a run of it.

#![tactic(auto)]

use answer::Answer;
use image::Image;
use machine::{Event, Machine, Touch};

#[derive(Clone, Copy)]
pub struct Schedule {
    pub t: u8,
    pub count: u16,
    pub image: Image,
}

// A run on its way: T, N, the image's form, how many events there are, the number of the next one, and the machine;
// what the last event was, what it answered and which line it touched.
#[derive(Clone, Copy)]
pub struct Running {
    pub t: u8,
    pub n: u8,
    pub form: u8,
    pub count: usize,
    pub place: usize,
    pub answer: Answer,
    pub machine: Machine,
    pub event: Event,
    pub touch: Touch,
}
