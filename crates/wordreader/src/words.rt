// Words of a text, byte by byte.
ghost use Rattle.std.specs.Prelude.{◌≡◌, ◌<◌};
ghost use Rattle.spelling.specs.Words.{no_line, digit_more, letter_more, grown, ended, line_byte};

use spelling::{Line, Word};

#[tactic(auto, unfolding(spelling::specs::Words::digit_more))]
fn digit_more(w: Word, d: u64) -> Word
    requires { d < 10 }
    ensures { result ≡ digit_more w d }
{
    match w {
        Word::None => Word::Number(d),
        Word::Number(x) if x <= (18446744073709551615 - d) / 10 => Word::Number(x * 10 + d),
        Word::Number(_) | Word::Beyond => Word::Beyond,
        Word::Letters(_) | Word::Other => Word::Other,
    }
}

#[tactic(auto, unfolding(spelling::specs::Words::letter_more))]
fn letter_more(w: Word, d: u64) -> Word
    requires { d < 32 }
    ensures { result ≡ letter_more w d }
{
    match w {
        Word::None => Word::Letters(d),
        Word::Letters(k) if k < 35184372088832 => Word::Letters(k * 32 + d),
        _ => Word::Other,
    }
}

#[tactic(auto, unfolding(spelling::specs::Words::grown))]
fn grow(w: Word, x: u8) -> Word
    ensures { result ≡ grown w x }
{
    match x {
        b'0'..=b'9' => digit_more(w, (x - b'0') as u64),
        b'a'..=b'z' => letter_more(w, (x - 96) as u64),
        b'-' => letter_more(w, 27),
        _ => Word::Other,
    }
}

pub fn no_line() -> Line
    ensures { result ≡ no_line }
{
    Line {
        remark: false,
        count: 0,
        words: [Word::None; 5],
        word: Word::None,
    }
}

// The word that was read is whole.
#[tactic(auto, unfolding(spelling::specs::Words::ended))]
pub fn end_word(l: Line) -> Line
    ensures { result ≡ ended l }
{
    let word = l.word;
    if let Word::None = word {
        return l;
    }
    let mut r = l;
    r.word = Word::None;
    let i = l.count as usize;
    if i < 5 {
        r.words[i] = word;
        r.count = l.count + 1;
    } else {
        r.count = 6;
    }
    r
}

// One byte more, which is not the line's end.
#[tactic(auto, unfolding(spelling::specs::Words::line_byte))]
pub fn line_byte(l: Line, x: u8) -> Line
    ensures { result ≡ line_byte l x }
{
    if l.remark {
        return l;
    }
    match x {
        b'#' => Line {
            remark: true,
            ..end_word(l)
        },
        b' ' | b'\t' | b'\r' => end_word(l),
        _ => Line {
            word: grow(l.word, x),
            ..l
        },
    }
}
