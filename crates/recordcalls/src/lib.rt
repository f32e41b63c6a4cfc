// The machine as a record's bytes: its start, one event, its persisted image, and where its nodes are.

#![tactic(auto)]

ghost use Rattle.std.specs.Prelude.{◌≡◌, ◌≤◌, length};
ghost use Rattle.lists.specs.Tab.{over};
ghost use Rattle.answer.specs.Answers.{told};
ghost use Rattle.calls.specs.Packed.{packed, reply_of};
ghost use Rattle.calls.specs.Calls.{start_answered, save_answered, places_answered, started, start_written, happened, event_written, saved_bytes, save_written, places_counted, places_written, place_bytes, event_given};

use answer::{Answer, Refusal, Reply};
use calls::packing::{packed_answer, packed_of, reply_of};
use image::threads_fit;
use machine::{Event, Places};

fn put_start(image: &[u8], threads: u8, bytes: &mut [u8]) -> Answer
    ensures answers { result ≡ start_answered image.now threads (length bytes.old) }
    ensures written { bytes.new ≡ start_written image.now threads bytes.old }
{
    if !threads_fit(threads) {
        return Err(Refusal::Threads);
    }
    let g = codec::read_part(image, threads, 0)?;
    let m = machine::start_from(g, threads)?;
    record::write_record(m, bytes)
}

// `bytes` are a record's. Here the start of an image with T threads is written into them.
pub fn start(image: &[u8], threads: u8, bytes: &mut [u8]) -> u64
    ensures answers { result ≡ started image.now threads (length bytes.old) }
    ensures written { bytes.new ≡ start_written image.now threads bytes.old }
{
    packed_answer(put_start(image, threads, bytes))
}

// What an event answers, as one number: the value is what an operation answered with it.
fn packed_event(a: Answer) -> u64
    ensures { result ≡ packed (told a) (reply_of (told a)) }
{
    packed_of(a, reply_of(a))
}

// One event on a record's bytes, in place.
// Each way answers for itself and by no `?`: an answer that is put together behind them has the record copied twice more, 5 KB of stack.
pub fn event(bytes: &mut [u8], kind: u8, number: u8, item: u32) -> u64
    ensures answers { result ≡ happened bytes.old (event_given kind number item) }
    ensures written { bytes.new ≡ event_written bytes.old (event_given kind number item) }
{
    match record::read_record(bytes) {
        Err(refusal) => packed_event(Err(refusal)),
        Ok(m) => {
            let out = events::on_event(m, Event { kind, number, item });
            match out.answer {
                Err(refusal) => packed_event(Err(refusal)),
                Ok(reply) => {
                    let _ = record::write_record(out.machine, bytes);
                    packed_event(Ok(reply))
                }
            }
        }
    }
}

fn put_saved(bytes: &[u8], buffer: &mut [u8]) -> Answer
    ensures answers { result ≡ save_answered bytes.now (length buffer.old) }
    ensures written { buffer.new ≡ save_written bytes.now buffer.old }
{
    let m = record::read_record(bytes)?;
    events::save(m, buffer)
}

// The persisted image of a record, in its form, into the front of the buffer.
pub fn save(bytes: &[u8], buffer: &mut [u8]) -> u64
    ensures answers { result ≡ saved_bytes bytes.now (length buffer.old) }
    ensures written { buffer.new ≡ save_written bytes.now buffer.old }
{
    packed_answer(put_saved(bytes, buffer))
}

fn put_places(b: &mut [u8], p: Places)
    requires { 6 ≤ length b.old }
    ensures { b.new ≡ over b.old 0 (place_bytes p) }
{
    b[0] = p.queue;
    b[1] = p.free;
    b[2] = p.waiting;
    b[3] = p.held;
    b[4] = p.enqueue;
    b[5] = p.dequeue;
}

fn put_counts(bytes: &[u8], buffer: &mut [u8]) -> Answer
    ensures answers { result ≡ places_answered bytes.now (length buffer.old) }
    ensures written { buffer.new ≡ places_written bytes.now buffer.old }
{
    let m = record::read_record(bytes)?;
    let p = events::count_places(m)?;
    if buffer.len() < 6 {
        return Err(Refusal::Room);
    }
    put_places(buffer, p);
    Ok(Reply::Taken)
}

// How many nodes of a record are in each of the six places, into the buffer's first six bytes.
pub fn places(bytes: &[u8], buffer: &mut [u8]) -> u64
    ensures answers { result ≡ places_counted bytes.now (length buffer.old) }
    ensures written { buffer.new ≡ places_written bytes.now buffer.old }
{
    packed_answer(put_counts(bytes, buffer))
}
