// The step system of a setup.
ghost use Rattle.std.specs.Prelude.{◌≡◌, []};
ghost use Rattle.frame.specs.Frames.{WithinRules};
ghost use Rattle.actions.specs.Contents.{names_of, pairs_of};
ghost use Rattle.frame.specs.Reading.{setup_view};
ghost use Rattle.frame.specs.Systems.{system_view};
ghost use Rattle.server.specs.LayeredSetup.{layered_answer, layered_view};

use frame::fault::FrameFault;
use frame::setup::Setup;
use systems::System;

mod definitions;
mod design;
mod net;

// Makes the terms or the net with its renaming and its mask, or refuses the first body or event that breaks a rule.
pub(crate) fn build(setup: &Setup<'_>) -> Result<System, FrameFault>
    requires { WithinRules (setup_view setup.now) }
    ensures { layered_view result ≡ layered_answer (pairs_of setup.now.pairs) (names_of setup.now.names) (system_view setup.now.system) }
{
    let system = design::build(&setup.system)?;
    Ok(systems::layered(system, setup.pairs, setup.names))
}
