// What the program was asked for: its first argument.
use std::env::FillError;
use std::rt::Env;

#[derive(Clone, Copy, Debug)]
pub(crate) enum Asked {
    Words,
    Columns,
    Ending(u64),
}

// None where the argument is none that there is.
pub(crate) fn way_asked(rt: &impl Env) -> Option<Asked> {
    let mut word = [0u8; 64];
    match rt.arg(1, &mut word) {
        Ok(n) => match &word[..n] {
            b"columns" => Some(Asked::Columns),
            s => stream::decimal(s).map(|k| Asked::Ending(u64::from(k))),
        },
        Err(FillError::TooLong) => None,
        Err(FillError::NotPresent) => Some(Asked::Words),
    }
}
