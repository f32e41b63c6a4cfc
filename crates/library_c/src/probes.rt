// A probe file as bytes: where an observed answer first differs from the machine's.
ghost use Rattle.std.specs.Prelude.{◌≡◌, length};
ghost use Rattle.calls.specs.Probes.{replay_given, replay_written};

// A probe file replayed. The value is 0 where all agree, else one more than the number of the first event that differs; both answers are written then.
#[unsafe(no_mangle)]
pub extern "C" fn uq_replay(file: &[u8], buffer: &mut [u8]) -> u64
    ensures answers { result ≡ replay_given file.now (length buffer.old) }
    ensures written { buffer.new ≡ replay_written file.now buffer.old }
{
    library::probes::uq_replay(file, buffer)
}
