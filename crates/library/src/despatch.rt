// The despatch desk's list: what became of each enqueue begun since a schedule's last start, at one of its endings.
ghost use Rattle.std.specs.Prelude.{◌≡◌, length};
ghost use Rattle.parcels.specs.Despatch.{despatch_written};
ghost use Rattle.parcelcalls.specs.Given.{despatch_given};

// The list at ending k into the buffer's first bytes, 8 an entry. The value is the number of entries.
pub fn uq_despatch(schedule: &[u8], k: u64, buffer: &mut [u8]) -> u64
    ensures answers { result ≡ despatch_given schedule.now k (length buffer.old) }
    ensures bytes { buffer.new ≡ despatch_written schedule.now k buffer.old }
{
    parcelcalls::despatch(schedule, k, buffer)
}
