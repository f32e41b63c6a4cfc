// A history as bytes: the verdict on it.
ghost use Rattle.std.specs.Prelude.{◌≡◌, length};
ghost use Rattle.calls.specs.Judging.{judge_given, judge_written};

// The verdict on a history. The value is the tries, the verdict's number and how many numbers the order has; these are written into the buffer's front.
#[unsafe(no_mangle)]
pub extern "C" fn uq_judge(history: &[u8], order: &mut [u8]) -> u64
    ensures answers { result ≡ judge_given history.now (length order.old) }
    ensures written { order.new ≡ judge_written history.now order.old }
{
    library::histories::uq_judge(history, order)
}
