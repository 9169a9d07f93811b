// Setups: what they hold once they are accepted, and how they are read.
ghost use Rattle.std.specs.Prelude.{◌≡◌, ◌+◌, ◌<◌, length};
ghost use Rattle.actions.specs.Contents.{pairs_of, names_of};
ghost use Rattle.frame.specs.Frames.{first_place};
ghost use Rattle.frame.specs.Systems.{place_of};

use crate::definition::Definitions;
use crate::event::{EVENT_SIZE, Events};
use crate::fault::FrameFault;
use crate::kind::Kind;
use crate::layout::layout;
use crate::rules::allowed;
use actions::names::Names;
use actions::pairs::Pairs;
use nets::event::Event;
use nets::net::EVENT_LIMIT;
use terms::terms::DEFINITION_LIMIT;

// The parts of a setup: pairs of names, names, and the system, which stands behind them in the
// frame.
#[derive(Clone, Copy)]
pub struct Setup<'a> {
    pub pairs: Pairs,
    pub names: Names,
    pub system: System<'a>,
    ghost placed: { place_of system ≡ first_place (pairs_of pairs) (names_of names) },
}

// The system of a setup: the definitions of terms, or the events of a net.
#[derive(Clone, Copy)]
pub enum System<'a> {
    Terms(Definitions<'a>),
    Net(Events<'a>),
}

impl Setup<'_> {
    ghost use Rattle.frame.specs.Reading.{layout_answer, parts_answer, setup_answer, setup_view, result_view};
    ghost use Rattle.frame.specs.Systems.{system_view, event_of_system};

    // Reads what stands behind the first byte of a setup's frame: its kind, its layout, and then
    // the rules.
    pub(crate) fn read(fields: &[u8]) -> Result<Setup<'_>, FrameFault>
        requires { length fields.now < 1024 }
        ensures { result_view setup_view result ≡ setup_answer fields.now }
    {
        let (kind, fields) = fields.split_first().ok_or(FrameFault::Malformed(1))?;
        let kind = Kind::of(*kind).ok_or(FrameFault::BadSetup(1))?;
        Setup::read_parts(kind, fields)
    }

    // Reads what stands behind the kind of a setup.
    fn read_parts(kind: Kind, fields: &[u8]) -> Result<Setup<'_>, FrameFault>
        requires { length fields.now < 1023 }
        ensures { result_view setup_view result
            ≡ parts_answer (length fields.now + 2) (layout_answer kind fields.now) }
    {
        // The places fit, so no `try_from`: a frame has at most 1,024 bytes.
        let end = fields.len() + 2;
        let (parts, behind) = layout(kind, fields).ok_or(FrameFault::Malformed(end as u16))?;
        if !behind.is_empty() {
            return Err(FrameFault::Malformed((end - behind.len()) as u16));
        }
        allowed(parts)
    }

    // The event of a number, from 0 on; none past the last, and of terms none.
    pub fn event(&self, i: u8) -> Option<Event>
        ensures { result ≡ event_of_system (system_view self.now.system) i }
    {
        match self.system {
            System::Terms(_) => None,
            System::Net(events) => events.event(i),
        }
    }
}

impl System<'_> {
    ghost use Rattle.frame.specs.Rules.{few};
    ghost use Rattle.frame.specs.Systems.{system_view};

    // Whether there are not too many definitions or events.
    pub(crate) fn is_few(&self) -> bool
        ensures { result ≡ few (system_view self.now) }
    {
        match self {
            System::Terms(definitions) => usize::from(definitions.count) <= DEFINITION_LIMIT,
            System::Net(events) => events.bytes.len() <= usize::from(EVENT_SIZE) * EVENT_LIMIT,
        }
    }
}
