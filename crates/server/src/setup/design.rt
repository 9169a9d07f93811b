// The terms or the net of a setup.
ghost use Rattle.std.specs.Prelude.{◌≡◌};
ghost use Rattle.frame.specs.Frames.{Few};
ghost use Rattle.frame.specs.Systems.{system_view, place_of};
ghost use Rattle.server.specs.DesignSetup.{design_answer, design_view};

use crate::setup::{definitions, net};
use frame::fault::FrameFault;
use frame::setup::System;
use systems::terms_or_net::TermsOrNet;

// Makes the terms or the net, or refuses the first body or event that breaks a rule.
pub(crate) fn build(system: &System<'_>) -> Result<TermsOrNet, FrameFault>
    requires { Few (system_view system.now) }
    ensures { design_view result ≡ design_answer (place_of system.now) (system_view system.now) }
{
    let made = match system {
        System::Terms(bodies) => TermsOrNet::Terms(definitions::build(bodies)?),
        System::Net(events) => TermsOrNet::Net(net::build(events)?),
    };
    Ok(made)
}
