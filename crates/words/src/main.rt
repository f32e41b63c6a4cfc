// The words of a schedule (docs/WORDS.md): its bytes on standard input, the words on standard output; a refusal on standard error.

#![tactic(auto)]

use answer::told_of;

fn main(rt: HostRuntime) {
    // The longest schedule has 25,430 bytes: what is longer than this is refused as its first part is.
    let mut s = [0u8; 32768];
    let Some(got) = stream::whole(&mut rt.stdin(), &mut s) else {
        let _ = eprintln!(rt;
            "words: standard input could not be read to its end, no words are printed"
        );
        return;
    };
    // 4,170 entries of at most 64 bytes: there is room for the whole text.
    let mut b = [0u8; 266880];
    match desk::spell_lines(&s[..got], 0, &mut b) {
        Ok(spelled) => {
            let text = b.get(..spelled.bytes).unwrap_or(&b);
            if rt.write_all(text).is_err() {
                let _ = eprintln!(rt; "words: standard output took no more, the text is not whole");
            }
        }
        Err(refusal) => {
            let told = told_of(Err(refusal));
            let _ = eprintln!(rt; "words: refused {} at {}", told.number, told.place);
        }
    }
}
