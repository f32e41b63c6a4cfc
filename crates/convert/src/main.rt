// One image in another form: its bytes on standard input, the converted image's bytes on standard output; or the refusal's line.
// The argument is `wide` (version 1 to 2), `narrow` (version 2 to 1), `import` ("UQP" to version 1) or `export` with a second one, T (version 1 to "UQP").

#![tactic(auto)]

use answer::{Answer, told_of};
use image::{Shape, size_of};
use std::rt::Env;

// What is asked for; an export is for T desks.
#[derive(Clone, Copy)]
enum Change {
    Wide,
    Narrow,
    Import,
    Export(u8),
}

impl Change {
    fn convert(self, s: &[u8], b: &mut [u8]) -> Answer {
        match self {
            Change::Wide => converting::widen(s, b),
            Change::Narrow => converting::narrow(s, b),
            Change::Import => converting::import_desks(s, b),
            Change::Export(t) => converting::export_desks(s, t, b),
        }
    }

    // How many bytes the image of n nodes has that is written.
    #[tactic(auto, unfolding(image::specs::Form::known))]
    fn size(self, n: u8) -> usize {
        match self {
            Change::Wide => size_of(Shape { form: 2, n, t: 0 }),
            Change::Narrow | Change::Import => size_of(Shape { form: 1, n, t: 0 }),
            Change::Export(t) => size_of(Shape { form: 4, n, t }),
        }
    }
}

// A second argument of one digit; of anything else 0, which is refused by 4.
fn threads(rt: &impl Env) -> u8 {
    let mut word = [0; 8];
    match rt.arg(2, &mut word) {
        Ok(1) if word[0].is_ascii_digit() => word[0] - b'0',
        _ => 0,
    }
}

// By the first argument. One that is longer than the buffer is none of these words, and so is a missing one.
fn asked(rt: &impl Env) -> Option<Change> {
    let mut word = [0; 8];
    let n = rt.arg(1, &mut word).unwrap_or(0);
    match &word[..n] {
        b"wide" => Some(Change::Wide),
        b"narrow" => Some(Change::Narrow),
        b"import" => Some(Change::Import),
        b"export" => Some(Change::Export(threads(rt))),
        _ => None,
    }
}

// The converted image, or the line of the refusal; the error is what was not done, and why.
fn convert(rt: &HostRuntime) -> Result<(), &'static str> {
    let change = asked(rt).ok_or("the argument is `wide`, `narrow`, `import`, or `export` and T")?;
    // The longest image has 846 bytes: what is longer than this is refused as its first part is.
    let mut s = [0; 1024];
    let got = stream::whole(&mut rt.stdin(), &mut s).ok_or(
        "standard input could not be read to its end, no image is written",
    )?;
    let mut b = [0; 846];
    let a = change.convert(&s[..got], &mut b);
    if a.is_err() {
        let told = told_of(a);
        return println!(rt; "refused {} at {}", told.number, told.place).map_err(
            |_| "standard output took no more, the line is not whole",
        );
    }
    let size = change.size(s[5]);
    rt.write_all(b.get(..size).unwrap_or(&b))
        .map_err(|_| "standard output took no more, the image is not whole")
}

fn main(rt: HostRuntime) {
    if let Err(why) = convert(&rt) {
        let _ = eprintln!(rt; "convert: {why}");
    }
}
