// A judgement as the programs print it: the verdict with its tries, and the order where there is one.
use super::{Judgement, Verdict};
use std::fmt;

impl fmt::Display for Verdict {
    fn fmt<W: fmt::Write>(&self, f: &mut fmt::Formatter<W>) -> fmt::Result {
        match self {
            Verdict::Unlawful => write!(f, "unlawful"),
            Verdict::Lawful => write!(f, "lawful"),
            Verdict::Undecided => write!(f, "undecided"),
        }
    }
}

impl fmt::Display for Judgement {
    fn fmt<W: fmt::Write>(&self, f: &mut fmt::Formatter<W>) -> fmt::Result {
        let verdict = self.verdict;
        let tries = self.tries;
        write!(f, "{verdict} {tries} tries")?;
        if verdict == Verdict::Lawful {
            write!(f, " order")?;
            for k in self.order.iter().take(usize::from(self.count)) {
                write!(f, " {k}")?;
            }
        }
        Ok(())
    }
}
