// Events of a net: what must hold before one, and what holds after it.
ghost use Rattle.std.specs.Prelude.{◌≡◌, ℕ, ◌↔◌, Some, IsTrue, OnOk, IfErr};
ghost use Rattle.nets.specs.Conditions.{IsProper, HasFault};
ghost use Rattle.nets.specs.Events.{event_fault, add_answer};
ghost use Rattle.nets.specs.Firing.{conditions, fire, apart_from, Fires, Apart};

use actions::action::is_action;
use byte_strings::list::Blank;

// An event: its action, and the conditions before and after it, bit c standing for condition c.
#[derive(Clone, Copy)]
pub struct Event {
    // 0 is silent, 0x01 to 0x3F are names, 0x41 to 0x7F are their co-names.
    // A byte and no enum: an event is made of any and then checked, so that a net can say what is
    // wrong with it.
    pub action: u8,
    pub before: u64,
    pub after: u64,
}

// Why a net does not take an event.
#[derive(Clone, Copy)]
pub enum EventFault {
    // The net has as many events as it can hold.
    Full,
    // Its action is neither silent nor a name or a co-name.
    NoAction,
    // No condition before it, or none after it.
    EmptySet,
    // A condition both before and after it.
    SharedCondition,
}

// The event in the places of a net that hold none.
impl Blank for Event {
    ghost blank = { record { action = 0; before = 0; after = 0 } };

    fn blank() -> Event {
        Event {
            action: 0,
            before: 0,
            after: 0,
        }
    }
}

impl Event {
    // The conditions before or after the event.
    fn conditions(self) -> u64
        ensures { result ≡ conditions self }
    {
        self.before | self.after
    }

    // The marking that follows by the event, or that it is not possible.
    pub fn fire(self, marking: u64) -> Option<u64>
        ensures value { result ≡ fire self marking }
        ensures rule { (m : ℕ) → (result ≡ Some m) ↔ Fires self marking m }
    {
        if marking & self.before == self.before && marking & self.after == 0 {
            Some(marking ^ self.conditions())
        } else {
            None
        }
    }

    // Whether no condition is at both events.
    pub fn apart_from(self, other: Event) -> bool
        ensures value { result ≡ apart_from self other }
        ensures rule { (IsTrue result) ↔ Apart self other }
    {
        self.conditions() & other.conditions() == 0
    }

    // Whether a net may have the event, or the first thing that is wrong with it.
    pub fn check(self) -> Result<(), EventFault>
        ensures answer { result ≡ add_answer (event_fault self) }
        ensures proper { OnOk result (IsProper self) }
        ensures faulty { IfErr result (λ fault. HasFault self fault) }
    {
        if !is_action(self.action) {
            return Err(EventFault::NoAction);
        }
        if self.before == 0 || self.after == 0 {
            return Err(EventFault::EmptySet);
        }
        if self.before & self.after != 0 {
            return Err(EventFault::SharedCondition);
        }
        Ok(())
    }
}
