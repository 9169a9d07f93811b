// Terms or a net, as one step system: what is asked of it is asked of the one that it is.
ghost use Rattle.std.specs.Prelude.{◌≡◌};
ghost use Rattle.systems.specs.Design.{design_of, transitions_of, independence_of};
ghost use Rattle.systems.specs.Laws.{design_laws};

use nets::net::Net;
use steps::fault::MaskFault;
use steps::label::Label;
use steps::system::StepSystem;
use terms::terms::Terms;

#[derive(Clone, Copy)]
pub enum TermsOrNet {
    Terms(Terms),
    Net(Net),
}

impl StepSystem for TermsOrNet {
    ghost transitions = { λ s. transitions_of (design_of s) };

    ghost independence = { λ s. independence_of (design_of s) };

    ghost lawful = { design_laws };

    fn state(&self, state: &[u8]) -> Result<(), MaskFault> {
        match self {
            TermsOrNet::Terms(terms) => terms.state(state),
            TermsOrNet::Net(net) => net.state(state),
        }
    }

    fn step(&self, step: &[u8]) -> Result<(), MaskFault> {
        match self {
            TermsOrNet::Terms(terms) => terms.step(step),
            TermsOrNet::Net(net) => net.step(step),
        }
    }

    fn label(&self, step: &[u8]) -> Result<Label, MaskFault> {
        match self {
            TermsOrNet::Terms(terms) => terms.label(step),
            TermsOrNet::Net(net) => net.label(step),
        }
    }

    fn next(&self, state: &[u8], step: &[u8], out: &mut [u8]) -> Result<usize, MaskFault> {
        match self {
            TermsOrNet::Terms(terms) => terms.next(state, step, out),
            TermsOrNet::Net(net) => net.next(state, step, out),
        }
    }

    fn independent(&self, x: &[u8], y: &[u8]) -> Result<bool, MaskFault> {
        match self {
            TermsOrNet::Terms(terms) => terms.independent(x, y),
            TermsOrNet::Net(net) => net.independent(x, y),
        }
    }

    fn residual(&self, x: &[u8], y: &[u8], out: &mut [u8]) -> Result<Option<usize>, MaskFault> {
        match self {
            TermsOrNet::Terms(terms) => terms.residual(x, y, out),
            TermsOrNet::Net(net) => net.residual(x, y, out),
        }
    }

    fn back(&self, x: &[u8], z: &[u8], out: &mut [u8]) -> Result<Option<usize>, MaskFault> {
        match self {
            TermsOrNet::Terms(terms) => terms.back(x, z, out),
            TermsOrNet::Net(net) => net.back(x, z, out),
        }
    }
}
