// From an ending's choices to those of the next one, in place.
ghost use Rattle.std.specs.Prelude.{◌≡◌, ◌+◌, ◌≤◌, ◌<◌};
ghost use Rattle.endtable.specs.Picks.{Counted, turned_of};
ghost use Rattle.sheet.specs.Order.{turns_at};

fn next(d: u8, count: u8) -> u8
    requires { d + 1 < count }
    ensures { result ≡ d + 1 }
{
    d + 1
}

// As endtable::turned; gives the line that turned. The lines before it keep their choices.
pub fn turn(picks: &mut [u8; 72], counts: &[u8; 72], lines: usize) -> usize
    requires { (lines ≤ 72) × Counted counts.now lines }
    ensures line { result ≡ turns_at counts.now lines picks.old }
    ensures picks { picks.new ≡ turned_of counts.now lines picks.old }
{
    for i in (0..lines).rev() {
        let d = picks[i];
        if d < counts[i] - 1 {
            picks[i] = next(d, counts[i]);
            return i;
        }
        picks[i] = 0;
    }
    0
}
