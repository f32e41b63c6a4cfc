// The sum of many endings out of one run. The public call makes the run again for each ending, which is too slow for thousands.
ghost use Rattle.std.specs.Prelude.{◌≡◌, ◌≤◌, true, length};
ghost use Rattle.image.specs.Form.{known, head_lines};
ghost use Rattle.machine.specs.Line.{line_count};
ghost use Rattle.endtable.specs.Picks.{Ready};
ghost use Rattle.runs.specs.Paged.{PageTaken};

use compare::output::front;
use compare::sums::Sum;
use endtable::ending::{ending_image, ending_picks};
use image::{Content, Shape, size_of};
use runs::paging::page_of;
use runs::running::Run;
use runs::tables::{counts_of, table_of};

fn sum_table(t: [[Content; 16]; 72], counts: [u8; 72], z: Shape, count: u32, lent: &mut [u8]) -> Sum
    requires { (known z.form ≡ true) × (z.n ≤ 64) × (head_lines z ≤ 8) × Ready counts (line_count z) × (846 ≤ length lent.old) }
{
    let whole = size_of(z);
    let mut sum = Sum::new();
    for k in 0..count {
        let picks = ending_picks(counts, z, k);
        let g = ending_image(t, picks, z);
        codec::put_image(lent, g);
        sum = sum.with(front(lent, whole));
    }
    sum
}

fn sum_run(r: Run, s: &[u8], count: u32) -> Sum
    requires { PageTaken s.now r }
{
    let mut lent = [0; 846];
    sum_table(
        table_of(&r.rows),
        counts_of(&r.rows),
        r.machine.shape(),
        count,
        &mut lent,
    )
}

// The sum of a schedule's first `count` endings; of no bytes where it is refused.
pub(crate) fn sum_endings(s: &[u8], count: u32) -> Sum {
    match page_of(s) {
        Ok(r) => sum_run(r, s, count),
        Err(_) => Sum::new(),
    }
}
