// A schedule's page on standard output, a lent buffer at a time. The schedule is run once. One function writes, and takes only what is
// the next part of the page: each is written once, in order, and nothing else. That the system takes it on is std's and its own part.

#![tactic(auto)]

ghost use Rattle.std.specs.Prelude.{◌≡◌, Err, true, false, not, IfOk, IfErr, IfSome, OnOk, ◌+◌, ◌≤◌, length};
ghost use Rattle.answer.specs.Answers.{accepted};
ghost use Rattle.image.specs.Form.{head_lines};
ghost use Rattle.machine.specs.Line.{line_count};
ghost use Rattle.schedule.specs.Layout.{schedule_in};
ghost use Rattle.page.specs.Refusals.{page_answer};
ghost use Rattle.page.specs.Printed.{printed, refused_line};
ghost use Rattle.page.specs.Filled.{lines_on};
ghost use Rattle.endtable.specs.Picks.{Ready};
ghost use Rattle.runs.specs.Paged.{PageTaken};
ghost use Rattle.filling.specs.Lines.{table_line};
ghost use Rattle.printer.specs.Parts.{NextPart};

use answer::Refusal;
use codec::open_schedule;
use endtable::ending::ending_count;
use filling::fill_told;
use image::{Content, Shape};
use printing::whole::write_refused;
use runs::paging::page_of;
use runs::rows::lines_of;
use runs::running::Run;
use runs::tables::{counts_of, table_of};
use schedule::Schedule;
use sheet::sheet::sheet_of;
use std::io;
use std::io::Write;

// Whether the schedule was refused, and how many bytes the text has where standard output took the whole of it.
#[derive(Clone, Copy, Debug, PartialEq, Eq)]
pub struct Printed {
    pub refused: bool,
    pub bytes: Option<usize>,
}

// The first n bytes of b, which are the next part of the page of s; `done` counts the bytes that are written.
fn write_front(
    out: &mut impl Write,
    s: &[u8],
    b: &[u8],
    n: usize,
    done: &mut usize,
) -> io::Result<()>
    requires { NextPart (printed s.now) done.old b.now n }
    ensures { OnOk result (done.new ≡ done.old + n) }
{
    out.write_all(&b[..n])?;
    *done += n;
    Ok(())
}

fn print_refused(out: &mut impl Write, s: &[u8], e: Refusal, done: &mut usize) -> io::Result<()>
    requires { (refused_line (Err e) ≡ printed s.now) × (done.old ≡ 0) }
    ensures { OnOk result (done.new ≡ length (printed s.now)) }
{
    let mut b = [0; 64];
    let place = write_refused(&mut b, 0, Err(e));
    write_front(out, s, &b, place, done)
}

// A buffer of lines at a time, told from the table and its sheet, which is made once: it has room for the longest, so each turn prints one
// at least.
fn print_lines(
    out: &mut impl Write,
    s: &[u8],
    t: [[Content; 16]; 72],
    counts: [u8; 72],
    z: Shape,
    threads: u8,
    events: u16,
    count: u32,
    b: &mut [u8],
    done: &mut usize,
) -> io::Result<()>
    requires n_bound { (z.n ≤ 64) × (head_lines z ≤ 8) × Ready counts (line_count z) × (threads ≤ 8) × (events ≤ 4096) × (count ≤ 65536) × (731 ≤ length b.old) × (length b.old ≤ 65536) }
    requires count_value { (lines_on (table_line t counts z threads events count) 0 (count + 1) ≡ printed s.now) × (done.old ≡ 0) }
    ensures { OnOk result (done.new ≡ length (printed s.now)) }
{
    let sheet = sheet_of(t, counts, z.n);
    let mut next = 0;
    while next <= count {
        let filled = fill_told(
            t,
            counts,
            z,
            &sheet.slots,
            sheet.count,
            &sheet.ranks,
            &sheet.items,
            &sheet.starts,
            threads,
            events,
            count,
            next,
            b,
        );
        write_front(out, s, b, filled.place, done)?;
        next = filled.next;
    }
    Ok(())
}

// The page of a run that is not refused.
fn print_run(
    out: &mut impl Write,
    s: &[u8],
    d: Schedule,
    r: Run,
    b: &mut [u8],
    done: &mut usize,
) -> io::Result<()>
    requires { PageTaken s.now r × (d ≡ schedule_in s.now) × (731 ≤ length b.old) × (length b.old ≤ 65536) × (done.old ≡ 0) }
    ensures { OnOk result (done.new ≡ length (printed s.now)) }
{
    let z = r.machine.shape();
    let counts = counts_of(&r.rows);
    let count = ending_count(counts, lines_of(z));
    let t = table_of(&r.rows);
    print_lines(out, s, t, counts, z, d.t, d.count, count, b, done)
}

// The page, or its refusal, before which nothing is written.
fn print_taken(
    out: &mut impl Write,
    s: &[u8],
    b: &mut [u8],
    done: &mut usize,
) -> Result<io::Result<()>, Refusal>
    requires { (731 ≤ length b.old) × (length b.old ≤ 65536) × (done.old ≡ 0) }
    ensures taken { IfOk result (λ written. (accepted (page_answer s.now) ≡ true) × OnOk written (done.new ≡ length (printed s.now))) }
    ensures refused { IfErr result (λ e. (Err e ≡ page_answer s.now) × (done.new ≡ 0)) }
{
    let r = page_of(s)?;
    let d = open_schedule(s)?;
    Ok(print_run(out, s, d, r, b, done))
}

// The page, or the line of its refusal. The buffer has room for the longest line.
pub fn print_page(out: &mut impl Write, s: &[u8], b: &mut [u8]) -> Printed
    requires { (731 ≤ length b.old) × (length b.old ≤ 65536) }
    ensures refuses { result.refused ≡ not (accepted (page_answer s.now)) }
    ensures prints { IfSome result.bytes (λ n. n ≡ length (printed s.now)) }
{
    let mut done = 0;
    match print_taken(out, s, b, &mut done) {
        Ok(written) => Printed {
            refused: false,
            bytes: written.is_ok().then_some(done),
        },
        Err(e) => {
            let written = print_refused(out, s, e, &mut done);
            Printed {
                refused: true,
                bytes: written.is_ok().then_some(done),
            }
        }
    }
}
