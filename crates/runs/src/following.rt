// The rows behind an event that touched a line: those of the lines, and those since the flushes.
ghost use Rattle.std.specs.Prelude.{◌≡◌, ◌≤◌, ◌<◌};
ghost use Rattle.image.specs.Form.{head_lines};
ghost use Rattle.machine.specs.Line.{shape_of};
ghost use Rattle.runs.specs.Rows.{line_in, OfThreads, rows_left, since_left};

use crate::over::is_over;
use endtable::opened::cached_at;
use endtable::row::Row;
use endtable::since::join_since;
use machine::lines::number_of;
use machine::{Line, Machine, Touch};

// The line that was touched.
fn line_in(touch: Touch) -> Option<Line>
    ensures { result ≡ line_in touch }
{
    match touch {
        Touch::Nothing => None,
        Touch::Store(line) => Some(line),
        Touch::Persist(line) => Some(line),
        Touch::Flush(_, line) => Some(line),
        Touch::Fence(_, line) => Some(line),
    }
}

// The machine behind the event is m; `heads` and `nodes` are the threads over each head line and over each node before it.
pub fn follow(
    m: &Machine,
    touch: Touch,
    heads: [u8; 8],
    nodes: [u8; 64],
    rows: &mut [Row; 72],
    since: &mut [Row; 8],
)
    requires { (head_lines (shape_of m.now) ≤ 8) × OfThreads touch }
    ensures rows { rows.new ≡ rows_left rows.old since.old heads nodes m.now touch }
    ensures since { since.new ≡ since_left since.old m.now touch }
{
    let z = m.shape();
    let Some(line) = line_in(touch) else {
        return;
    };
    let l = number_of(z, line);
    if 72 <= l {
        return;
    }
    let c = cached_at(m, l);
    match touch {
        Touch::Nothing => {}
        Touch::Store(_) => {
            rows[l] = rows[l].joined(c, false);
            join_since(z, &m.threads, since, l, c);
        }
        Touch::Persist(_) => {
            rows[l] = rows[l].joined(c, true);
        }
        Touch::Flush(k, _) => {
            since[k as usize] = Row::of(c);
        }
        Touch::Fence(k, _) => {
            if is_over(heads, nodes, z, l, k as u32) {
                return;
            }
            rows[l] = since[k as usize];
        }
    }
}
