// What a line holds, by its number.
ghost use Rattle.std.specs.Prelude.{◌≡◌, ◌≤◌};
ghost use Rattle.machine.specs.Line.{shape_of, cached_at, persisted_at, line_at};
ghost use Rattle.image.specs.Form.{head_lines};

use image::{Content, head_lines};
use machine::Machine;

// The cached content of line l; that of a node that there is not is blank.
pub fn cached_at(m: &Machine, l: usize) -> Content
    requires { head_lines (shape_of m.now) ≤ 8 }
    ensures { result ≡ cached_at m.now (line_at (shape_of m.now) l) }
{
    let lines = head_lines(m.shape());
    if l < lines {
        return Content::of_head(m.heads[l]);
    }
    match m.nodes.get(l - lines) {
        Some(v) => Content::from(*v),
        None => Content::of_head(0),
    }
}

// The persisted content of line l; that of a node that there is not is blank.
pub fn persisted_at(m: &Machine, l: usize) -> Content
    requires { head_lines (shape_of m.now) ≤ 8 }
    ensures { result ≡ persisted_at m.now (line_at (shape_of m.now) l) }
{
    let lines = head_lines(m.shape());
    if l < lines {
        return Content::of_head(m.kept_heads[l]);
    }
    match m.kept.get(l - lines) {
        Some(c) => *c,
        None => Content::of_head(0),
    }
}
