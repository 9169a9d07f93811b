// The terms of a setup.
ghost use Rattle.std.specs.Prelude.{◌≡◌, ◌≤◌, length};
ghost use Rattle.terms.specs.Bodies.{definition_limit};
ghost use Rattle.frame.specs.Systems.{bodies_of};
ghost use Rattle.server.specs.TermsSetup.{terms_answer, terms_view};

use frame::definition::Definitions;
use frame::fault::FrameFault;
use terms::terms::Terms;

// Makes the terms, or refuses the first byte that fits no body.
pub(crate) fn build(definitions: &Definitions<'_>) -> Result<Terms, FrameFault>
    requires { length (bodies_of definitions.now) ≤ definition_limit }
    ensures { terms_view result ≡ terms_answer definitions.now.place (bodies_of definitions.now) }
{
    let mut terms = Terms::new(definitions.count);
    for definition in definitions.iter() {
        if let Err(fault) = terms.add(definition.body) {
            return Err(FrameFault::BadSetup(definition.place + fault.place()));
        }
    }
    Ok(terms)
}
