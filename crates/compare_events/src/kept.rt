// The call on a kept record, for callers that hand a record round by value.
ghost use Rattle.events.specs.Applied.{Applied};

use machine::{Event, Machine, Out};

pub(crate) fn kept_event(m: Machine, e: Event) -> Out
    ensures { Applied m e result.answer result.machine }
{
    let mut machine = m;
    let answer = events::apply(&mut machine, e);
    Out { answer, machine }
}
