// The public call on one line of a schedule's page: the contents that a crash may leave in it.
ghost use Rattle.std.specs.Prelude.{◌≡◌, ◌≤◌};
ghost use Rattle.answer.specs.Answers.{given};
ghost use Rattle.pages.specs.Lines.{line_answer, line_shown, blank_row, first_of};

use answer::Refusal;
use endtable::row::Row;
use image::Content;
use runs::paging::page_of;
use runs::rows::lines_of;

// How many contents a line has, and these, oldest first; those beyond are blank. A buffer with its length beside it: the library has no heap.
#[derive(Clone, Copy)]
pub struct LineContents {
    pub count: u8,
    pub contents: [Content; 16],
}

fn blank_row() -> [Content; 16]
    ensures { result ≡ blank_row }
{
    [Content::of_head(0); 16]
}

// The first n contents of a row: what a row holds beyond its count is nobody's.
fn first_of(row: [Content; 16], n: usize) -> [Content; 16]
    requires { n ≤ 16 }
    ensures { result ≡ first_of row n }
{
    let mut contents = blank_row();
    contents[..n].copy_from_slice(&row[..n]);
    contents
}

fn shown(row: Row) -> LineContents
    requires { row.count ≤ 16 }
    ensures { result ≡ record { count = row.count; contents = first_of row.at row.count } }
{
    LineContents {
        count: row.count,
        contents: first_of(row.at, row.count as usize),
    }
}

// The contents of line l; after the page's refusals 10, with place 0, where there is no such line.
pub fn line_contents(s: &[u8], l: u32) -> Result<LineContents, Refusal>
    ensures { result ≡ given (line_answer s.now l) (line_shown s.now l) }
{
    let r = page_of(s)?;
    let i = l as usize;
    if lines_of(r.machine.shape()) <= i {
        return Err(Refusal::Number(0));
    }
    Ok(shown(r.rows[i]))
}
