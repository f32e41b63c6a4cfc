// The rows of a run as a table of lines by sixteen contents, and its counts. The rows are lent, and copied line by line: as a value they would
// stand on the stack once more for each function that they go through.
ghost use Rattle.std.specs.Prelude.{◌≡◌};
ghost use Rattle.endtable.specs.Opened.{blank_table, blank_counts};
ghost use Rattle.runs.specs.Rows.{ats_of, counts_of};

use endtable::row::Row;
use image::Content;
use machine::Machine;

// Behind a contract, so that no goal has the table written out; the counts likewise.
fn blank_table() -> [[Content; 16]; 72]
    ensures { result ≡ blank_table }
{
    [[Content::of_head(0); Machine::CONTENTS]; Machine::LINES]
}

fn blank_counts() -> [u8; 72]
    ensures { result ≡ blank_counts }
{
    [0; Machine::LINES]
}

pub fn table_of(rows: &[Row; 72]) -> [[Content; 16]; 72]
    ensures { result ≡ ats_of rows.now }
{
    let mut t = blank_table();
    for l in 0..Machine::LINES {
        t[l] = rows[l].at;
    }
    t
}

pub fn counts_of(rows: &[Row; 72]) -> [u8; 72]
    ensures { result ≡ counts_of rows.now }
{
    let mut counts = blank_counts();
    for l in 0..Machine::LINES {
        counts[l] = rows[l].count;
    }
    counts
}
