// How many endings the counts give, and the endings picked from the table.
ghost use Rattle.std.specs.Prelude.{◌≡◌, ◌++◌, ℕ, suc, ◌<◌, ◌≤◌, drop};
ghost use Rattle.image.specs.Form.{head_lines, own_threads};
ghost use Rattle.image.specs.Layout.{heads_of};
ghost use Rattle.machine.specs.Line.{line_count};
ghost use Rattle.endtable.specs.Picks.{Counted, Filled, crowded_at, capped, prod, counts_answer, digits, picks_of, picked_head, picked_image};

use answer::{Answer, Refusal, Reply};
use image::{Content, Image, Shape, head_lines, no_contents, no_heads};
use machine::Machine;

// The first line with more than 16 contents, and the number of lines where none has, as the definition crowded_at counts.
pub fn first_crowded(counts: [u8; 72], lines: usize) -> usize
    requires { lines ≤ 72 }
    ensures { result ≡ crowded_at counts lines }
{
    for i in 0..lines {
        if 16 < counts[i] {
            return i;
        }
    }
    lines
}

// How many endings there are; 65,537 stands for any number above 65,536, and the product stops there. The number is that of the definition capped:
// behind counts_answer an Option would give each caller an arm that cannot be.
pub fn ending_count(counts: [u8; 72], lines: usize) -> u32
    requires { (lines ≤ 72) × Counted counts lines }
    ensures { result ≡ capped (prod counts lines) }
{
    let mut p: u32 = 1;
    for i in 0..lines {
        let c = counts[i] as u32;
        p = p * c;
        if Machine::ENDINGS < p {
            return 65537;
        }
    }
    p
}

// 14 with the first crowded line, then 15.
pub fn counts_answer(counts: [u8; 72], lines: usize) -> Answer
    requires { (lines ≤ 72) × Counted counts lines }
    ensures { result ≡ counts_answer counts lines }
{
    let crowded = first_crowded(counts, lines);
    if crowded < lines {
        return Err(Refusal::Contents(crowded as u32));
    }
    let count = ending_count(counts, lines);
    if Machine::ENDINGS < count {
        return Err(Refusal::Endings);
    }
    Ok(Reply::Taken)
}

// The choices of the first `left` lines in ending k, written to the front of `picks`. The last line turns fastest. A recursion, as its
// definition digits is.
fn split(counts: [u8; 72], left: usize, k: u32, picks: [u8; 72]) -> [u8; 72]
    requires { (left ≤ 72) × Counted counts left }
    ensures { result ≡ digits counts left k ++ drop left picks }
{
    if left == 0 {
        return picks;
    }
    let i = left - 1;
    let c = counts[i] as u32;
    let mut p = picks;
    p[i] = (k % c) as u8;
    split(counts, i, k / c, p)
}

// The choices of every line in ending k.
pub fn ending_picks(counts: [u8; 72], z: Shape, k: u32) -> [u8; 72]
    requires { (z.n ≤ 64) × (head_lines z ≤ 8) × Counted counts (line_count z) }
    ensures { result ≡ picks_of counts z k }
{
    split(counts, head_lines(z) + z.n as usize, k, [0; 72])
}

// T as an image of this shape holds it.
pub fn own_threads(z: Shape) -> u8
    ensures { result ≡ own_threads z }
{
    if z.form == 4 {
        return z.t;
    }
    0
}

// The indices that the picks name in the head lines.
fn picked_heads(t: [[Content; 16]; 72], picks: [u8; 72], z: Shape) -> [u64; 8]
    requires { (z.n ≤ 64) × (head_lines z ≤ 8) × Filled picks (line_count z) }
    ensures { result ≡ heads_of z (picked_head t picks) }
{
    let lines = head_lines(z);
    let mut heads = no_heads();
    for k in 0..lines {
        let j = picks[k] as usize;
        let c = t[k][j];
        heads[k] = c.index;
    }
    heads
}

// One entry a line, as an image of this shape: with the picks of ending k, that ending.
pub fn ending_image(t: [[Content; 16]; 72], picks: [u8; 72], z: Shape) -> Image
    requires { (z.n ≤ 64) × (head_lines z ≤ 8) × Filled picks (line_count z) }
    ensures { result ≡ picked_image t picks z }
{
    let lines = head_lines(z);
    let mut nodes = no_contents();
    let count = z.n as usize;
    for i in 0..count {
        let j = picks[lines + i] as usize;
        nodes[i] = t[lines + i][j];
    }
    let heads = picked_heads(t, picks, z);
    let held = own_threads(z);
    Image {
        heads,
        nodes,
        form: z.form,
        n: z.n,
        t: held,
    }
}
