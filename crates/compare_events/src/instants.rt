// What is printed of a machine after a start or an event.
use answer::{Reply, told_of};
use compare::output::{Hex, Output};
use compare::sums::Sum;
use machine::Machine;
use record::{SIZE, write_record};
use std::io;
use std::io::Write;

// `REPLY VALUE RECORD`
pub(crate) fn put_moment(out: &mut Output, r: Reply, m: Machine) -> io::Result<()> {
    let mut bytes = [0u8; SIZE];
    let _ = write_record(m, &mut bytes);
    let told = told_of(Ok(r));
    writeln!(out, "{} {} {}", told.reply, told.item, Hex(&bytes))
}

// `REPLY VALUE SUM`
pub(crate) fn put_moment_sum(out: &mut Output, r: Reply, m: Machine) -> io::Result<()> {
    let mut bytes = [0u8; SIZE];
    let _ = write_record(m, &mut bytes);
    let told = told_of(Ok(r));
    writeln!(
        out,
        "{} {} {}",
        told.reply,
        told.item,
        Sum::new().with(&bytes)
    )
}
