// One line of a schedule's page: its contents as bytes.
ghost use Rattle.std.specs.Prelude.{◌≡◌, length};
ghost use Rattle.calls.specs.Line.{line_given, line_written};

// The contents of a line, the oldest first, with indices of 64 bits, into the buffer's front. The value is how many.
#[unsafe(no_mangle)]
pub extern "C" fn uq_line(schedule: &[u8], line: u32, buffer: &mut [u8]) -> u64
    ensures answers { result ≡ line_given schedule.now line (length buffer.old) }
    ensures written { buffer.new ≡ line_written schedule.now line buffer.old }
{
    library::line::uq_line(schedule, line, buffer)
}
