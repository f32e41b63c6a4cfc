// A schedule laid out for the plain way: what is refused, in order, and otherwise what its runs need.
ghost use Rattle.std.specs.Prelude.{◌≡◌, ◌≤◌, ◌^◌};
ghost use Rattle.plainway.specs.Noting.{WayIs};

use answer::Refusal;
use image::Shape;
use plainruns::Plan;
use plainruns::planning::plan_of;

// The plan, how many lines there are, the bytes of an image, how many picks a line has, and how many runs there are.
#[derive(Clone, Copy, Debug, PartialEq, Eq)]
pub struct Way {
    pub plan: Plan,
    pub lines: usize,
    pub size: usize,
    pub base: u32,
    pub runs: u32,
}

// The page's refusals, then 15 for a schedule that is too large, then 17 where the images do not all fit into `room` bytes: there are as many as the page has.
pub fn way_of(s: &[u8], room: usize) -> Result<Way, Refusal>
    ensures { WayIs s.now room result }
{
    let count = pages::count_endings(s)?;
    let d = codec::open_schedule(s)?;
    let g = d.image;
    let z = Shape {
        form: g.form,
        n: g.n,
        t: d.t,
    };
    if 12 < d.count {
        return Err(Refusal::Endings);
    }
    if 4 < g.n {
        return Err(Refusal::Endings);
    }
    let lines = runs::rows::lines_of(z);
    if 6 < lines {
        return Err(Refusal::Endings);
    }
    let size = image::size_of(z);
    if room < count as usize * size {
        return Err(Refusal::Room);
    }
    let plan = plan_of(s, d);
    let base = plan.since as u32 + 2;
    let runs = base.pow(lines as u32);
    Ok(Way {
        plan,
        lines,
        size,
        base,
        runs,
    })
}
