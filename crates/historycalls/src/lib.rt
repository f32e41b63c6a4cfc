// A history as bytes: the verdict on it.

#![tactic(auto)]

ghost use Rattle.std.specs.Prelude.{◌≡◌, ◌≤◌, ◌<◌, length, take};
ghost use Rattle.lists.specs.Tab.{over};
ghost use Rattle.answer.specs.Answers.{given};
ghost use Rattle.judging.specs.Judged.{judged_in};
ghost use Rattle.calls.specs.Judging.{verdict_of, judge_value, judge_answered, judge_given, judge_written};

use answer::Refusal;
use calls::packing::packed_result;

fn verdict_of(tries: u32, verdict: u8, count: u8) -> u64
    ensures { (result ≡ verdict_of tries verdict count) × (result < 72057594037927936) }
{
    (tries as u64) + (verdict as u64) * 16777216 + (count as u64) * 4294967296
}

// The first n numbers of the order.
fn put_order(b: &mut [u8], order: [u8; 16], n: usize)
    requires { (n ≤ 16) × (n ≤ length b.old) }
    ensures { b.new ≡ over b.old 0 (take n order) }
{
    for i in 0..n {
        b[i] = order[i];
    }
}

// The verdict, and its order in the buffer's front.
fn judged(history: &[u8], order: &mut [u8]) -> Result<u64, Refusal>
    ensures answers { result ≡ given (judge_answered history.now (length order.old)) (judge_value (judged_in history.now)) }
    ensures written { order.new ≡ judge_written history.now order.old }
{
    let r = judging::judge_history(history)?;
    if order.len() < history[0] as usize {
        return Err(Refusal::Room);
    }
    put_order(order, r.order, r.count as usize);
    Ok(verdict_of(r.tries, u8::from(r.verdict), r.count))
}

// The verdict on a history. The value is the tries, the verdict's number and how many numbers the order has; these are written into the buffer's front.
pub fn judge(history: &[u8], order: &mut [u8]) -> u64
    ensures answers { result ≡ judge_given history.now (length order.old) }
    ensures written { order.new ≡ judge_written history.now order.old }
{
    packed_result(judged(history, order))
}
