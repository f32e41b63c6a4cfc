// The book: each line's contents since it was last persisted, and those since each desk's flush.
use image::Content;

// How many contents of a line are kept: a page takes 16.
const PLACES: usize = 64;

// At most eight head lines, and 64 nodes.
const LINES: usize = 72;

const DESKS: usize = 8;

// Contents of one line, each once, in the order in which they came. (A list of fixed room: the program takes no memory while it runs.)
#[derive(Clone, Copy, Debug)]
pub struct Contents {
    list: [Content; 64],
    count: usize,
}

impl Contents {
    // A list that begins with c.
    fn of(c: Content) -> Contents {
        Contents {
            list: [c; PLACES],
            count: 1,
        }
    }

    pub fn list(&self) -> &[Content] {
        &self.list[..self.count.min(PLACES)]
    }

    // The place of a content; where it is not there, how many there are.
    pub fn seat_of(&self, c: Content) -> usize {
        self.list()
            .iter()
            .position(|d| *d == c)
            .unwrap_or(self.list().len())
    }

    // c joins the list unless it is there, or there is no room. Its place.
    fn join(&mut self, c: Content) -> usize {
        let j = self.seat_of(c);
        if j == self.list().len() && j < PLACES {
            self.list[j] = c;
            self.count = j + 1;
        }
        j
    }
}

// What is known of a desk's flush: the event, and the line's contents since then.
#[derive(Clone, Copy, Debug)]
pub struct Flush {
    pub event: u16,
    pub since: Contents,
}

#[derive(Clone, Copy, Debug)]
pub struct Book {
    lines: [Contents; 72],
    flushes: [Flush; 8],
}

impl Book {
    pub fn new() -> Book {
        let none = Contents {
            list: [Content::of_head(0); PLACES],
            count: 0,
        };
        Book {
            lines: [none; LINES],
            flushes: [Flush {
                event: 0,
                since: none,
            }; DESKS],
        }
    }

    pub fn line(&self, line: u8) -> &Contents {
        &self.lines[(line as usize).min(LINES - 1)]
    }

    // The line's list begins anew with c.
    pub fn begin(&mut self, line: u8, c: Content) {
        if let Some(contents) = self.lines.get_mut(line as usize) {
            *contents = Contents::of(c);
        }
    }

    // The line's content became c: it joins the list unless it is there. Its place.
    pub fn join(&mut self, line: u8, c: Content) -> usize {
        match self.lines.get_mut(line as usize) {
            Some(contents) => contents.join(c),
            None => 0,
        }
    }

    pub fn flush_of(&self, desk: u8) -> &Flush {
        &self.flushes[(desk as usize).min(DESKS - 1)]
    }

    // A desk flushes a line with content c at an event: the contents since then are c alone.
    pub fn flushed(&mut self, desk: u8, c: Content, event: u16) {
        if let Some(flush) = self.flushes.get_mut(desk as usize) {
            *flush = Flush {
                event,
                since: Contents::of(c),
            };
        }
    }

    // The line that the desk flushed became c.
    pub fn join_since(&mut self, desk: u8, c: Content) {
        if let Some(flush) = self.flushes.get_mut(desk as usize) {
            flush.since.join(c);
        }
    }

    // The desk's fence of the line counts: the line's list is that of the contents since the flush.
    pub fn fenced(&mut self, desk: u8, line: u8) {
        let since = self.flush_of(desk).since;
        if let Some(contents) = self.lines.get_mut(line as usize) {
            *contents = since;
        }
    }
}
