// What a call gives, as one number, so that every call returns one.
ghost use Rattle.std.specs.Prelude.{◌≡◌, ◌<◌, IfOk};
ghost use Rattle.answer.specs.Answers.{told, told_reply};
ghost use Rattle.calls.specs.Packed.{packed, packed_result, reply_of, lines_of};

use answer::{Answer, Refusal, Reply, Told, told_of};

// A call's value; number and place of its refusal.
pub fn packed_result(r: Result<u64, Refusal>) -> u64
    requires { IfOk r (λ v. v < 72057594037927936) }
    ensures { result ≡ packed_result r }
{
    match r {
        Ok(v) => v * 256,
        Err(e) => {
            let t = Told::from(e);
            (t.number as u64) + (t.place as u64) * 256
        }
    }
}

// An answer that has no value; number and place of its refusal.
pub fn packed_answer(a: Answer) -> u64
    ensures { result ≡ packed (told a) 0 }
{
    packed_result(a.map(|_| 0))
}

// Number and place of a refusal; where the call is taken, the value v.
pub fn packed_of(a: Answer, v: u64) -> u64
    requires { v < 72057594037927936 }
    ensures { result ≡ packed (told a) v }
{
    let t = told_of(a);
    let number = t.number;
    if number == 0 {
        return v * 256;
    }
    (number as u64) + (t.place as u64) * 256
}

// What an operation answered with an event that was taken.
pub fn reply_value(r: Reply) -> u64
    ensures value { result ≡ reply_of (told_reply r) }
    ensures small { result < 72057594037927936 }
{
    let t = Told::from(r);
    (t.item as u64) + (t.reply as u64) * 4294967296
}

// What an operation answered with an event that was taken.
pub fn reply_of(a: Answer) -> u64
    ensures { (result ≡ reply_of (told a)) × (result < 72057594037927936) }
{
    let t = told_of(a);
    (t.item as u64) + (t.reply as u64) * 4294967296
}

// How many lines were written, and how many bytes.
pub fn lines_of(lines: u32, bytes: usize) -> u64
    ensures { (result ≡ lines_of lines bytes) × (result < 72057594037927936) }
{
    let more = bytes as u64;
    ((lines % 16777216) as u64) + more % 4294967296 * 16777216
}
