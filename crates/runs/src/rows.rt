// The rows that a run keeps: for each line up to sixteen contents and their count, 17 standing for more.
ghost use Rattle.std.specs.Prelude.{◌≡◌, ◌≤◌, ◌<◌};
ghost use Rattle.image.specs.Form.{head_lines};
ghost use Rattle.machine.specs.Line.{shape_of, line_count};
ghost use Rattle.runs.specs.Rows.{opened_rows, no_rows};

use endtable::opened::{cached_at, persisted_at};
use endtable::row::Row;
use image::{Shape, head_lines};
use machine::Machine;

// Behind a contract, so that no goal has the rows written out.
pub fn no_rows() -> [Row; 72]
    ensures { result ≡ no_rows }
{
    [Row::blank(); Machine::LINES]
}

// How many lines there are.
pub fn lines_of(z: Shape) -> usize
    requires { head_lines z ≤ 8 }
    ensures { result ≡ line_count z }
{
    head_lines(z) + z.n as usize
}

// After a start: each line has its persisted content, and the cached one where that is another.
pub fn opened_rows(m: &Machine) -> [Row; 72]
    requires { (m.now.n ≤ 64) × (head_lines (shape_of m.now) ≤ 8) }
    ensures { result ≡ opened_rows m.now }
{
    let z = m.shape();
    let mut rows = no_rows();
    for l in 0..lines_of(z) {
        rows[l] = Row::opened(persisted_at(m, l), cached_at(m, l));
    }
    rows
}
