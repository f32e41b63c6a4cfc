// The FNV-1a sum of bytes, 64 bits.
use crate::output::Hex;
use std::fmt;

// A sum; of no bytes it is the one that FNV begins with.
#[derive(Clone, Copy)]
pub struct Sum(u64);

impl Sum {
    pub fn new() -> Sum {
        Sum(14695981039346656037)
    }

    // The sum with these bytes behind it.
    pub fn with(self, s: &[u8]) -> Sum {
        Sum(
            s.iter().fold(
                self.0,
                |sum, x| (sum ^ u64::from(*x)).wrapping_mul(1099511628211),
            ),
        )
    }
}

// Its 8 bytes, little-endian, in hex.
impl fmt::Display for Sum {
    fn fmt<W: fmt::Write>(&self, f: &mut fmt::Formatter<W>) -> fmt::Result {
        let bytes = self.0.to_le_bytes();
        write!(f, "{}", Hex(&bytes))
    }
}
