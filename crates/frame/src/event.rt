// The events of a setup, decoded.
ghost use Rattle.std.specs.Prelude.{◌≡◌, ◌+◌, ◌*◌, ◌/◌, ◌≤◌, length};
ghost use Rattle.std.specs.Iterator.{at_most};
ghost use Rattle.frame.specs.Events.{event_answer, NextEvent};

use nets::event::Event;

// The bytes of an event: an action, and the sets before and after it, of eight bytes each.
pub const EVENT_SIZE: u8 = 17;

// Events, one behind the other, with the place in the frame where they stand.
#[derive(Clone, Copy)]
pub struct Events<'a> {
    pub place: u16,
    pub bytes: &'a [u8],
    ghost within: { place + length bytes.now ≤ 1024 },
}

// The events that are left.
#[derive(Drop)]
pub struct EventsIter<'a> {
    pub rest: &'a [u8],
}

impl<'a> Events<'a> {
    // The events, from the first on.
    pub fn iter(&self) -> EventsIter<'a>
        ensures { result.rest.now ≡ self.now.bytes.now }
    {
        EventsIter { rest: self.bytes }
    }

    // The event of a number, from 0 on; none past the last.
    pub fn event(&self, i: u8) -> Option<Event>
        ensures { result ≡ event_answer self.now.bytes.now i }
    {
        let rest = self.bytes.get(usize::from(EVENT_SIZE) * usize::from(i)..)?;
        EventsIter { rest }.next()
    }

    // The place in the frame of an event's first byte, by its number from 0.
    pub fn place_of(&self, i: u8) -> u16
        ensures { result ≡ self.now.place + EVENT_SIZE * i }
    {
        self.place + u16::from(EVENT_SIZE) * u16::from(i)
    }
}

impl Iterator for EventsIter<'_> {
    type Item = Event;

    ghost next_gives = { λ s r t. NextEvent s.rest.now r t.rest.now };

    ghost remaining = { λ s. at_most (length s.rest.now / 17) };

    fn next(&mut self) -> Option<Event> {
        let (action, rest) = self.rest.split_first()?;
        let (before, rest) = rest.split_first_chunk()?;
        let (after, rest) = rest.split_first_chunk()?;
        self.rest = rest;
        Some(Event {
            action: *action,
            before: u64::from_be_bytes(*before),
            after: u64::from_be_bytes(*after),
        })
    }
}
