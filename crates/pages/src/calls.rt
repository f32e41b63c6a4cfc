// The public calls on a schedule's bytes: how many endings it has, and ending k as an image.
ghost use Rattle.std.specs.Prelude.{◌≡◌, ◌≤◌, length};
ghost use Rattle.answer.specs.Answers.{told, given};
ghost use Rattle.image.specs.Form.{head_lines};
ghost use Rattle.machine.specs.Line.{line_count};
ghost use Rattle.page.specs.Refusals.{page_answer, ending_answer, ending_written};
ghost use Rattle.endtable.specs.Picks.{Filled, picked_image};
ghost use Rattle.runs.specs.Rows.{ats_of};
ghost use Rattle.runs.specs.Paged.{count_of};

use answer::{Answer, Refusal, Reply};
use endtable::ending::{ending_count, ending_image, ending_picks};
use endtable::row::Row;
use image::{Image, Shape};
use runs::paging::page_of;
use runs::rows::lines_of;
use runs::tables::{counts_of, table_of};

// The count.
pub fn count_endings(s: &[u8]) -> Result<u32, Refusal>
    ensures { result ≡ given (page_answer s.now) (count_of s.now) }
{
    let page = page_of(s)?;
    let count = ending_count(counts_of(&page.rows), lines_of(page.machine.shape()));
    Ok(count)
}

// The ending that these choices pick. A call of its own: the table stands on the stack only while it is read, and not while the schedule runs.
#[inline(never)]
fn picked(rows: &[Row; 72], picks: [u8; 72], z: Shape) -> Image
    requires { (z.n ≤ 64) × (head_lines z ≤ 8) × Filled picks (line_count z) }
    ensures { result ≡ picked_image (ats_of rows.now) picks z }
{
    let t = table_of(rows);
    ending_image(t, picks, z)
}

// Ending k as an image, in the form of the schedule's image, in the first bytes of the lent buffer; the bytes after them stay. On a
// refusal nothing is written.
pub fn ending_of(s: &[u8], k: u64, b: &mut [u8]) -> Answer
    ensures answers { told result ≡ told (ending_answer s.now k (length b.old)) }
    ensures bytes { b.new ≡ ending_written s.now k b.old }
{
    let r = page_of(s)?;
    let z = r.machine.shape();
    let counts = counts_of(&r.rows);
    let count = ending_count(counts, lines_of(z));
    if count as u64 <= k {
        return Err(Refusal::NoEnding);
    }
    if b.len() < image::size_of(z) {
        return Err(Refusal::Room);
    }
    let picks = ending_picks(counts, z, k as u32);
    let g = picked(&r.rows, picks, z);
    codec::put_image(b, g);
    Ok(Reply::Taken)
}
