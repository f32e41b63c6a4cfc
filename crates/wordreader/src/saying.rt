// What a line says.
ghost use Rattle.std.specs.Prelude.{◌≡◌, ◌<◌, ◌≤◌};
ghost use Rattle.spelling.specs.Words.{value_of};
ghost use Rattle.spelling.specs.Lines.{grade, worse, graded, key_in, shape_of, said_by, said};

use crate::words::end_word;
use spelling::{Act, Grade, Line, Word};

const BYTE: u64 = 255;

const WORD: u64 = 4294967295;

const WIDE: u64 = 18446744073709551615;

// The shapes of the lines that are known, as `said_by` has them: how many words, and the key of the first or of the second.
const NODES: u64 = 242813746;

const THREADS: u64 = 348196981042;

const HEAD: u64 = 4276802;

const HEAD_OF_DESK: u64 = 4276803;

const NODE: u64 = 7587925;

const ENQUEUE: u64 = 93711854171;

const DEQUEUE: u64 = 71700146778;

const STEP: u64 = 10291978;

const STEPS: u64 = 10291979;

const WRITE_BACK: u64 = 13269802815604402;

const CRASH: u64 = 59795073;

const EVENT: u64 = 95509828;

const VERSION: u64 = 380953583330;

const DESKS: u64 = 70047538;

#[tactic(auto, unfolding(spelling::specs::Lines::grade))]
fn grade_of(w: Word, most: u64) -> Grade
    ensures { result ≡ grade w most }
{
    match w {
        Word::Number(x) if x <= most => Grade::Fits,
        Word::Number(_) | Word::Beyond => Grade::Large,
        Word::None | Word::Letters(_) | Word::Other => Grade::Strange,
    }
}

fn worse_of(a: Grade, b: Grade) -> Grade
    ensures { result ≡ worse a b }
{
    match (a, b) {
        (Grade::Strange, _) | (_, Grade::Strange) => Grade::Strange,
        (Grade::Large, _) | (_, Grade::Large) => Grade::Large,
        _ => Grade::Fits,
    }
}

#[tactic(auto, unfolding(spelling::specs::Lines::graded))]
fn graded_act(g: Grade, a: Act) -> Act
    ensures { result ≡ graded g a }
{
    match g {
        Grade::Fits => a,
        Grade::Large => Act::TooLarge,
        Grade::Strange => Act::Unknown,
    }
}

#[tactic(auto, unfolding(spelling::specs::Lines::key_in))]
fn key_in(w: Word) -> u64
    ensures key { result ≡ key_in w }
    ensures small { result < 1125899906842624 }
{
    match w {
        Word::Letters(k) => k % 1125899906842624,
        _ => 0,
    }
}

fn value_of(w: Word) -> u64
    ensures { result ≡ value_of w }
{
    match w {
        Word::Letters(x) | Word::Number(x) => x,
        Word::None | Word::Beyond | Word::Other => 0,
    }
}

#[tactic(auto, unfolding(spelling::specs::Lines::shape_of))]
fn shape_of(u: Word, v: Word, c: u8) -> u64
    ensures { result ≡ shape_of u v c }
{
    let x = key_in(u);
    if 0 < x {
        return x * 16 + (c as u64);
    }
    let y = key_in(v);
    if 0 < y {
        return y * 16 + 8 + (c as u64);
    }
    c as u64
}

// The kinds of lines by their shape.
#[tactic(auto, unfolding(spelling::specs::Lines::said_by, spelling::specs::Words::key_of, spelling::specs::Words::word_on, spelling::specs::Words::grown, spelling::specs::Words::letter_more, spelling::specs::Words::digit_more, lists::specs::Text::text))]
fn said_by(shape: u64, u: Word, v: Word, w: Word, x: Word, y: Word) -> Act
    ensures { result ≡ said_by shape u v w x y }
{
    let (a, b, c, d) = (value_of(u), value_of(v), value_of(w), value_of(x));
    match shape {
        0 => Act::Nothing,
        NODES => graded_act(grade_of(v, WIDE), Act::Nodes(b)),
        THREADS => graded_act(grade_of(v, BYTE), Act::Threads(b)),
        HEAD => graded_act(grade_of(v, WIDE), Act::Head(None, b)),
        NODE => {
            let g = worse_of(grade_of(v, WIDE), grade_of(w, BYTE));
            let h = worse_of(grade_of(x, WIDE), grade_of(y, WORD));
            graded_act(worse_of(g, h), Act::Node(b, c, d, value_of(y)))
        }
        ENQUEUE => {
            let g = worse_of(grade_of(u, BYTE), grade_of(w, WORD));
            graded_act(g, Act::Events(1, a, c, 1))
        }
        DEQUEUE => graded_act(grade_of(u, BYTE), Act::Events(2, a, 0, 1)),
        STEP => graded_act(grade_of(u, BYTE), Act::Events(3, a, 0, 1)),
        STEPS => {
            let g = worse_of(grade_of(u, BYTE), grade_of(w, WIDE));
            graded_act(g, Act::Events(3, a, 0, c))
        }
        WRITE_BACK => graded_act(grade_of(v, BYTE), Act::Events(4, b, 0, 1)),
        CRASH => Act::Events(5, 0, 0, 1),
        EVENT => {
            let g = worse_of(grade_of(w, BYTE), grade_of(x, WORD));
            let h = worse_of(grade_of(v, BYTE), g);
            graded_act(h, Act::Events(b, c, d, 1))
        }
        VERSION => graded_act(grade_of(v, WIDE), Act::Version(b)),
        DESKS => graded_act(grade_of(v, BYTE), Act::Desks(b)),
        HEAD_OF_DESK => {
            let g = worse_of(grade_of(v, WIDE), grade_of(w, WIDE));
            graded_act(g, Act::Head(Some(b), c))
        }
        _ => Act::Unknown,
    }
}

#[tactic(auto, unfolding(spelling::specs::Lines::said))]
pub fn said_of(l: Line) -> Act
    ensures { result ≡ said l }
{
    let e = end_word(l);
    let [u, v, w, x, y] = e.words;
    said_by(shape_of(u, v, e.count), u, v, w, x, y)
}
