// The picks of a run by its number.
ghost use Rattle.std.specs.Prelude.{◌≡◌, ◌<◌, ◌≤◌, ◌^◌};
ghost use Rattle.plainruns.specs.Turns.{no_picks, turn_in};

#[tactic(auto, unfolding(crate::specs::Turns::no_picks))]
fn no_picks() -> [u8; 6]
    ensures { result ≡ no_picks }
{
    [0; 6]
}

// Run k of the `runs` there are with `base` picks a line and n lines: line 0 turns slowest.
pub fn turn_of(base: u32, n: usize, runs: u32, k: u32) -> [u8; 6]
    requires { (1 ≤ base) × (base ≤ 14) × (n ≤ 6) × (runs ≡ base ^ n) × (k < runs) }
    ensures { result ≡ turn_in base n k }
{
    let mut picks = no_picks();
    let mut w = runs;
    let mut x = k;
    for j in 0..n {
        w /= base;
        picks[j] = (x / w) as u8;
        x %= w;
    }
    picks
}
