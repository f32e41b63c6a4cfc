// A line's row in the table: up to sixteen contents, in the order of their first appearance.
// A count of 17 says that there were more; the row then holds the first sixteen.
ghost use Rattle.std.specs.Prelude.{◌≡◌, ◌≤◌, ℕ, ltb};
ghost use Rattle.moments.specs.Seats.{seat_of};
ghost use Rattle.endtable.specs.Opened.{opened_row, opened_count};
ghost use Rattle.endtable.specs.Rows.{blank_row, joined_row, row_of};

use image::Content;
use machine::Machine;

// A buffer with its length beside it: the library has no heap.
#[derive(Clone, Copy)]
pub struct Row {
    pub count: u8,
    pub at: [Content; 16],
}

impl Row {
    // Its contents alone; those beyond the count are nobody's.
    pub fn contents(self) -> [Content; 16]
        ensures { result ≡ self.at }
    {
        self.at
    }

    // The row of no content.
    pub fn blank() -> Row
        ensures { result ≡ blank_row }
    {
        Row {
            count: 0,
            at: [Content::of_head(0); Machine::CONTENTS],
        }
    }

    // The row of one content.
    pub fn of(c: Content) -> Row
        ensures { result ≡ row_of c }
    {
        Row {
            count: 1,
            at: [c; Machine::CONTENTS],
        }
    }

    // The row of a line whose persisted content is p and whose cached content is c, which counts where it is another.
    pub fn opened(p: Content, c: Content) -> Row
        ensures { result ≡ record { count = opened_count p c; at = opened_row p c } }
    {
        let mut row = Row::blank();
        row.at[0] = p;
        row.at[1] = c;
        row.count = if p == c { 1 } else { 2 };
        row
    }

    // Whether c is one of the row's contents.
    fn holds(&self, c: Content) -> bool
        requires { self.now.count ≤ 16 }
        ensures { result ≡ ltb (seat_of self.now.at self.now.count c) self.now.count }
    {
        for i in 0..self.count as usize {
            if self.at[i] == c {
                return true;
            }
        }
        false
    }

    // The row of a line that an event touched and left with the cached content c: the line was stored to, or was persisted.
    pub fn joined(self, c: Content, persisted: bool) -> Row
        ensures { result ≡ joined_row self c persisted }
    {
        let mut row = self;
        if persisted {
            row.at[0] = c;
            row.count = 1;
            return row;
        }
        if 16 < self.count {
            return row;
        }
        if self.holds(c) {
            return row;
        }
        if self.count < 16 {
            row.at[self.count as usize] = c;
        }
        row.count = self.count + 1;
        row
    }
}
