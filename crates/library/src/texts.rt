// Text: lines of a schedule's page, and the line of a refusal.
ghost use Rattle.std.specs.Prelude.{◌≡◌, length};
ghost use Rattle.page.specs.Filled.{lines_written};
ghost use Rattle.filling.specs.Lines.{refusal_written};
ghost use Rattle.calls.specs.Texts.{lines_given, refusal_given};

// As many lines of the page as fit into the buffer, from line k on. The value is how many, and their bytes.
pub fn uq_page_lines(schedule: &[u8], k: u64, buffer: &mut [u8]) -> u64
    ensures answers { result ≡ lines_given schedule.now k (length buffer.old) }
    ensures bytes { buffer.new ≡ lines_written schedule.now k buffer.old }
{
    textcalls::page_lines(schedule, k, buffer)
}

// The line of a refusal into the buffer. The value is one line, and its bytes.
pub fn uq_refusal_line(number: u32, place: u32, buffer: &mut [u8]) -> u64
    ensures answers { result ≡ refusal_given number place (length buffer.old) }
    ensures bytes { buffer.new ≡ refusal_written number place buffer.old }
{
    textcalls::refusal_line(number, place, buffer)
}
