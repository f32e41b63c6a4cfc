// The printed page of one schedule: its bytes on standard input, the page or the refusal's line on standard output.

#![tactic(auto)]

fn main(rt: HostRuntime) {
    // The longest schedule has 25,430 bytes: what is longer than this is refused as its first part is.
    let mut s = [0u8; 32768];
    let Ok(bytes) = stream::fill(&mut rt.stdin(), &mut s) else {
        let _ = eprintln!(rt;
            "endings: standard input could not be read to its end, no page is printed"
        );
        return;
    };
    let mut b = [0u8; 65536];
    let printed = printer::print_page(&mut rt.stdout(), &s[..bytes], &mut b);
    if printed.bytes.is_none() {
        let _ = eprintln!(rt; "endings: standard output took no more, the page is not whole");
    }
}
