// A probe file as bytes: where an observed answer first differs from the machine's.

#![tactic(auto)]

ghost use Rattle.std.specs.Prelude.{◌≡◌, ◌≤◌, ◌<◌, ◌∷◌, ◌++◌, length, IfOk};
ghost use Rattle.lists.specs.Tab.{over};
ghost use Rattle.answer.specs.Answers.{given};
ghost use Rattle.replaying.specs.Replay.{replay_of};
ghost use Rattle.calls.specs.Probes.{replay_answered, replay_given, replay_written, odd_value};
ghost use Rattle.image.specs.Bytes.{le4};

use answer::Refusal;
use calls::packing::packed_result;
use replaying::Difference;

fn put_both(b: &mut [u8], r: Difference)
    requires { 10 ≤ length b.old }
    ensures { b.new ≡ over b.old 0 (r.seen ∷ (le4 r.seen_item ++ (r.given ∷ le4 r.given_item))) }
{
    b[0] = r.seen;
    codec::put_word(b, 1, r.seen_item as u64);
    b[5] = r.given;
    codec::put_word(b, 6, r.given_item as u64);
}

// The value of a replay; both answers are written where they differ.
fn replayed(file: &[u8], buffer: &mut [u8]) -> Result<u64, Refusal>
    ensures answers { result ≡ given (replay_answered file.now (length buffer.old)) (odd_value (replay_of file.now)) }
    ensures small { IfOk result (λ v. v < 72057594037927936) }
    ensures written { buffer.new ≡ replay_written file.now buffer.old }
{
    let first = replaying::replay(file)?;
    if buffer.len() < 10 {
        return Err(Refusal::Room);
    }
    match first {
        None => Ok(0),
        Some(r) => {
            put_both(buffer, r);
            Ok(r.event as u64 + 1)
        }
    }
}

// A probe file replayed. The value is 0 where all agree, else one more than the number of the first event that differs; both answers are written then.
pub fn replay(file: &[u8], buffer: &mut [u8]) -> u64
    ensures answers { result ≡ replay_given file.now (length buffer.old) }
    ensures written { buffer.new ≡ replay_written file.now buffer.old }
{
    packed_result(replayed(file, buffer))
}
