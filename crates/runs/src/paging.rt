// A schedule's page: what is refused, in order, and otherwise the rows that its endings are picked from.
ghost use Rattle.std.specs.Prelude.{◌≡◌, ◌≤◌};
ghost use Rattle.runs.specs.Paged.{PageIs};

use crate::rows::lines_of;
use crate::running::{Run, run_events};
use crate::tables::counts_of;
use answer::Refusal;
use endtable::ending::counts_answer;

// The schedule's bytes, its events in turn, then 14, 15.
pub fn page_of(s: &[u8]) -> Result<Run, Refusal>
    ensures { PageIs s.now result }
{
    let d = codec::open_schedule(s)?;
    let r = run_events(s, d)?;
    counts_answer(counts_of(&r.rows), lines_of(r.machine.shape()))?;
    Ok(r)
}
