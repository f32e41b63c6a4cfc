// A schedule's bytes from words (docs/WORDS.md): the words on standard input, the schedule on standard output; what is wrong, with its line counted
// from 1, on standard error.

#![tactic(auto)]

fn answer(rt: &(impl Print + Eprint), t: &[u8]) {
    // 255 nodes of version 2 and 65,535 events have no more.
    let mut b = [0u8; 396547];
    match desk::read_words(t, &mut b) {
        Ok(bytes) => {
            let schedule = b.get(..bytes).unwrap_or(&b);
            if rt.write_all(schedule).is_err() {
                let _ = eprintln!(rt;
                    "unwords: standard output took no more, the schedule is not whole"
                );
            }
        }
        Err(misread) => {
            let _ = eprintln!(rt; "unwords: {misread}");
        }
    }
}

fn main(rt: HostRuntime) {
    // The longest text that `words` writes has 105,133 bytes. A buffer that is full may not have all of a text.
    let mut t = [0u8; 131072];
    match stream::fill(&mut rt.stdin(), &mut t) {
        Ok(n) if n < 131072 => answer(&rt, &t[..n]),
        Ok(_) => {
            let _ = eprintln!(rt; "unwords: a text has at most 131,071 bytes");
        }
        Err(_) => {
            let _ = eprintln!(rt; "unwords: standard input could not be read to its end");
        }
    }
}
