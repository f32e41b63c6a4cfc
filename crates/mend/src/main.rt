// One damaged image: its bytes on standard input, the mended image's bytes on standard output, and on standard error which nodes were changed and
// why; or the refusal's line.

#![tactic(auto)]

use answer::told_of;
use mending::mend_image;
use stream::byte;

// What a linked flag was cleared for, by the refusal's number in the list.
fn reason(why: u8) -> &'static str {
    match why {
        6 => "6, the byte was above 1",
        7 => "7, a lower-numbered recovered node has its index",
        _ => "8, every node was recovered and its index is the largest",
    }
}

// The mended image and the changed nodes, or the line of the refusal; the error is what was not done, and why.
fn mend(rt: &HostRuntime) -> Result<(), &'static str> {
    // The longest image has 846 bytes: what is longer than this is refused as its first part is.
    let mut s = [0; 1024];
    let got = stream::whole(&mut rt.stdin(), &mut s).ok_or(
        "standard input could not be read to its end, no image is written",
    )?;
    let mut b = [0; 1024];
    // Two bytes for each of 64 nodes.
    let mut list = [0; 128];
    let count = match mend_image(&s[..got], &mut b, &mut list) {
        Ok(count) => count,
        Err(e) => {
            let told = told_of(Err(e));
            return println!(rt; "refused {} at {}", told.number, told.place).map_err(
                |_| "standard output took no more, the line is not whole",
            );
        }
    };
    if count == 0 {
        let _ = eprintln!(rt; "nothing changed");
    }
    for entry in list.chunks_exact(2).take(usize::from(count)) {
        let node = byte(entry, 0);
        let _ = eprintln!(rt;
            "node {node}: linked cleared for {}",
            reason(byte(entry, 1))
        );
    }
    // The mended image has as many bytes as the one that came.
    rt.write_all(&b[..got])
        .map_err(|_| "standard output took no more, the image is not whole")
}

fn main(rt: HostRuntime) {
    if let Err(why) = mend(&rt) {
        let _ = eprintln!(rt; "mend: {why}");
    }
}
