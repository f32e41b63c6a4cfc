// A probe file replayed: its bytes on standard input, one line on standard output.

#![tactic(auto)]

fn main(rt: HostRuntime) {
    // The longest probe file has 50,006 bytes: what is longer than this is refused as its first part is.
    let mut s = [0u8; 65536];
    let Ok(bytes) = stream::fill(&mut rt.stdin(), &mut s) else {
        let _ = eprintln!(rt;
            "replay: standard input could not be read to its end, nothing is replayed"
        );
        return;
    };
    replayed::print_file(&rt, &s[..bytes]);
}
