// The indices of the head lines: the one that a start takes, and whether all fit.
ghost use Rattle.std.specs.Prelude.{◌≡◌, ◌≤◌, ltb, get_or};
ghost use Rattle.lists.specs.Find.{any};
ghost use Rattle.image.specs.Form.{head_lines};
ghost use Rattle.image.specs.Recovered.{largest};

use super::Shape;
use super::form::head_lines;

// The largest of the first `count` indices; zero of none.
pub fn largest_of(heads: [u64; 8], count: usize) -> u64
    requires { count ≤ 8 }
    ensures { result ≡ largest heads count }
{
    heads[..count].iter().fold(0, |r, x| u64::max(r, *x))
}

// The largest of the head lines that there are.
pub fn head_of(heads: [u64; 8], z: Shape) -> u64
    requires { head_lines z ≤ 8 }
    ensures { result ≡ largest heads (head_lines z) }
{
    largest_of(heads, head_lines(z))
}

// Whether one of the first `count` indices is above `top`.
pub fn any_above(heads: [u64; 8], count: usize, top: u64) -> bool
    requires { count ≤ 8 }
    ensures { result ≡ any (λ k. ltb top (get_or heads k 0)) count }
{
    heads[..count].iter().any(|x| top < *x)
}
