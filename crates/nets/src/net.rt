// Nets: at most 48 events, each with an action and with two sets of conditions, neither of them
// empty and none shared.
ghost use Rattle.std.specs.Prelude.{◌≡◌, IsTrue};
ghost use Rattle.nets.specs.Events.{all_sound};

use crate::event::{Event, EventFault};
use byte_strings::list::FixedList;
use steps::fault::{MaskFault, SystemFault};

// The most events that a net has.
pub const EVENT_LIMIT: usize = 48;

// A net: its events.
#[derive(Clone, Copy)]
pub struct Net {
    events: FixedList<Event, EVENT_LIMIT>,
    ghost sound: { IsTrue (all_sound events) },
}

impl Net {
    ghost use Rattle.std.specs.Prelude.{◌≤◌, ◌↔◌, [], length, is_ok, Err, OnOk, IfOk, IfErr, IsFalse};
    ghost use Rattle.nets.specs.declared.event.EventFault.TheVariants.{Full};
    ghost use Rattle.nets.specs.Contents.{events_of};
    ghost use Rattle.nets.specs.Events.{event_limit, add_fault, add_answer, events_after};
    ghost use Rattle.nets.specs.Conditions.{IsProper};
    ghost use Rattle.nets.specs.System.{read_event, event_answer};
    ghost use Rattle.nets.specs.Rules.{Names};

    // A net without events.
    pub fn new() -> Net
        ensures { events_of result ≡ [] }
    {
        Net {
            events: FixedList::empty(),
        }
    }

    // Takes one event more, behind the others, or refuses it and stays as it is: a full net takes
    // none, and no net takes one that `Event::check` finds fault with.
    pub fn add(&mut self, event: Event) -> Result<(), EventFault>
        ensures answer { result ≡ add_answer (add_fault (events_of self.old) event) }
        ensures events { events_of self.new
            ≡ events_after (add_fault (events_of self.old) event) (events_of self.old) event }
        ensures refused { IsFalse (is_ok result) → self.new ≡ self.old }
        ensures full { (result ≡ Err Full) ↔ (event_limit ≤ length (events_of self.old)) }
        ensures proper { OnOk result (IsProper event) }
    {
        if self.events.items().len() >= EVENT_LIMIT {
            return Err(EventFault::Full);
        }
        event.check()?;
        self.events.push(event);
        Ok(())
    }

    // The event that a step names: one byte, its number. Else the place where the step ends naming
    // one, 0 or 1.
    pub fn event(&self, step: &[u8]) -> Result<Event, MaskFault>
        ensures answer { result ≡ event_answer (read_event (events_of self.now) step.now) }
        ensures named { IfOk result (λ e. Names (events_of self.now) step.now e) }
        ensures proper { IfOk result (λ e. IsProper e) }
    {
        let none = MaskFault::Inner(SystemFault::NoStep(0));
        let (number, rest) = step.split_first().ok_or(none)?;
        let event = self.events.items().get(usize::from(*number)).ok_or(none)?;
        if !rest.is_empty() {
            return Err(MaskFault::Inner(SystemFault::NoStep(1)));
        }
        Ok(*event)
    }
}
