// The public calls on schedules in words: written into a lent buffer, and read.

#![tactic(auto)]

ghost use Rattle.std.specs.Prelude.{◌≡◌, length};
ghost use Rattle.answer.specs.Answers.{given};
ghost use Rattle.spelling.specs.Writing.{spell_answer, spell_taken, spell_bytes, spell_written};
ghost use Rattle.spelling.specs.Reading.{read_answer, read_bytes, read_written, spelt};

use answer::Refusal;
use codec::open_schedule;
use image::{Shape, head_lines};
use spelling::{Misread, Spelled};
use wordreader::layout::{EVENT, node_start, shape_said};
use wordreader::{put_blank, put_text, survey_of};
use wordwriter::put_entries;

// As many entries of the words of a schedule as fit into the lent buffer, from entry k on; the bytes behind them stay. 16 where there is no entry k,
// 17 where not even that one fits, which a buffer of 64 bytes never meets. On a refusal nothing is written.
pub fn spell_lines(s: &[u8], k: u64, b: &mut [u8]) -> Result<Spelled, Refusal>
    ensures answers { result ≡ given (spell_answer s.now k (length b.old)) (record { entries = spell_taken s.now k (length b.old); bytes = length (spell_bytes s.now k (length b.old)) }) }
    ensures written { b.new ≡ spell_written s.now k b.old }
{
    let d = open_schedule(s)?;
    let lines = head_lines(Shape {
        form: d.image.form,
        n: d.image.n,
        t: d.t,
    });
    let to = 2 + lines + (d.image.n as usize) + (d.count as usize);
    if (to as u64) <= k {
        return Err(Refusal::NoEnding);
    }
    let from = k as usize;
    let w = put_entries(s, d, from, to, b);
    if w.next == from {
        return Err(Refusal::Room);
    }
    Ok(Spelled {
        entries: (w.next - from) as u32,
        bytes: w.place,
    })
}

// The schedule that the words say, into the front of the lent buffer; how many bytes it has, and the bytes behind it stay. On a refusal nothing is
// written. It does not judge the schedule.
pub fn read_words(t: &[u8], b: &mut [u8]) -> Result<usize, Misread>
    ensures answers { result ≡ spelt (read_answer t.now (length b.old)) (read_bytes t.now (length b.old)) }
    ensures written { b.new ≡ read_written t.now b.old }
{
    let s = survey_of(t);
    let v = s.survey;
    if let Some(fault) = v.fault {
        return Err(fault);
    }
    if !v.begun {
        return Err(Misread::Strange(s.last));
    }
    let g = shape_said(v);
    let from = node_start(g, g.n as usize);
    let z = from + (v.count as usize) * EVENT;
    if b.len() < z {
        return Err(Misread::Room);
    }
    put_blank(b, v);
    put_text(t, b, g, z, from);
    Ok(z)
}
