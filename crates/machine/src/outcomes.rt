// What a step answers and leaves, put together as the definitions do.
ghost use Rattle.std.specs.Prelude.{◌≡◌, ◌<◌};
ghost use Rattle.machine.specs.Retire.{quiet, moving, going};
ghost use Rattle.machine.specs.Event.{handed};

use super::{Acted, Machine, Out, Thread, Touch};
use answer::{Answer, Reply};

impl Acted {
    // It touches no line.
    pub fn quiet(answer: Answer, machine: Machine) -> Acted
        ensures { result ≡ quiet answer machine }
    {
        Acted {
            answer,
            machine,
            touch: Touch::Nothing,
        }
    }

    // Thread k, now v, goes on to step s.
    pub fn moving(m: Machine, k: usize, v: Thread, s: u8) -> Acted
        requires { k < 8 }
        ensures { result ≡ moving m k v s }
    {
        let mut machine = m;
        machine.threads[k] = Thread { step: s, ..v };
        Acted::quiet(Ok(Reply::Taken), machine)
    }

    // Thread k goes on to step s, and has read nothing new.
    pub fn going(m: Machine, k: usize, s: u8) -> Acted
        requires { k < 8 }
        ensures { result ≡ going m k s }
    {
        Acted::moving(m, k, m.threads[k], s)
    }

    // The same, with what it does to a line.
    pub fn touching(self, touch: Touch) -> Acted
        ensures { result ≡ record self { touch = touch } }
    {
        Acted { touch, ..self }
    }
}

// What a public call hands back of it.
impl From<Acted> for Out {
    ghost from_gives = { λ a o. o ≡ handed a };

    fn from(a: Acted) -> Out {
        Out {
            answer: a.answer,
            machine: a.machine,
        }
    }
}
