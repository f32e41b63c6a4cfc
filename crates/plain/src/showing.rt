// The lines of the page, from the images.
use codec::read_image;
use image::{Image, head_lines};
use printing::whole::write_ending;
use stream::{byte, half};

// The first line; a schedule that is taken has T at byte 5, its events' number at byte 6 and N at byte 13.
pub(crate) fn show_first(rt: &impl Print, s: &[u8], count: u32) {
    let threads = byte(s, 5);
    let nodes = byte(s, 13);
    let events = half(s, 6);
    let _ = println!(rt; "UQS 1 threads {threads} nodes {nodes} events {events} endings {count}");
}

// The line of image k. An image that was noted passes all three tests.
fn show_image(rt: &impl Print, k: u32, g: Image) -> bool {
    if 64 < g.n || 8 < head_lines(g.shape()) || 65535 < k {
        return false;
    }
    let mut line = [0; 731];
    let n = write_ending(&mut line, 0, k, g);
    rt.write_all(&line[..n]).is_ok()
}

// The lines of the images, `size` bytes each, that stand one after the other; whether standard output took them.
pub(crate) fn show_images(rt: &impl Print, b: &[u8], size: usize, count: u32) -> bool {
    let mut rest = b;
    for k in 0..count {
        let Some((front, behind)) = rest.split_at_checked(size) else {
            return false;
        };
        if !read_image(front).is_ok_and(|g| show_image(rt, k, g)) {
            return false;
        }
        rest = behind;
    }
    true
}
