// A stream of items, each answered.
use crate::output::Output;
use std::io;
use std::io::{Read, Write};

// The letter that stands before the stream and names the mode; 0 where there is none.
pub fn mode_of(input: &mut impl Read) -> u8 {
    let mut letter = [0; 1];
    let _ = stream::fill(input, &mut letter);
    letter[0]
}

// The text that answers each item, up to the input's end, where an item that is cut short is left out, and written out in the end.
// Nothing says that the input ends, so the items are counted up to a number that no run reaches.
pub fn answer_all<R: Read, F: FnMut(&[u8], &mut Output) -> io::Result<()>>(
    input: &mut R,
    item: &mut [u8],
    mut out: Output,
    mut answer: F,
)
    requires { F.IsAlwaysCallable answer }
{
    for _ in 0..u64::MAX {
        let Ok(Some(kept)) = stream::next_item(input, item) else {
            break;
        };
        let _ = answer(&item[..kept], &mut out);
    }
    let _ = out.flush();
}
