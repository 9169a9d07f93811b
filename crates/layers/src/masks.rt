// A mask: the system inside, without the steps that show certain names.
ghost use Rattle.std.specs.Prelude.{◌≡◌, Ok};
ghost use Rattle.actions.specs.Contents.{names_of};
ghost use Rattle.steps.specs.Answers.{both_answer};
ghost use Rattle.layers.specs.Mask.{mask_transitions, mask_independence};
ghost use Rattle.layers.specs.Promises.{MaskAnswers};
ghost use Rattle.layers.specs.Laws.MaskLaws.{mask_laws};

use actions::names::Names;
use steps::fault::MaskFault;
use steps::label::Label;
use steps::system::StepSystem;

// A step that shows one of the names, or the co-name of one, is sent back as masked and is no step
// of the mask.
#[derive(Clone, Copy)]
pub struct Mask<S> {
    pub system: S,
    pub names: Names,
}

impl<S: StepSystem> Mask<S> {
    // Takes from the system the steps that show one of the names. Of other steps it answers every
    // question as the system does; a step that it takes away is told as masked, but behind a string
    // that is no step.
    pub fn over(system: S, names: Names) -> Mask<S>
        ensures system { result.system ≡ system }
        ensures names { result.names ≡ names }
        ensures answers { MaskAnswers (names_of names)
            (S.transitions system) (S.independence system)
            (mask_transitions (names_of result.names) (S.transitions result.system))
            (mask_independence (names_of result.names) (S.transitions result.system)
            (S.independence result.system)) }
    {
        Mask { system, names }
    }

    // Does the mask let both steps through? A string that is no step is sent back before one that
    // is masked.
    fn both_shown(&self, x: &[u8], y: &[u8]) -> Result<(), MaskFault>
        ensures { result
            ≡ both_answer
            (mask_transitions (names_of self.now.names) (S.transitions self.now.system))
            x.now y.now (Ok tt) }
    {
        let first = self.step(x);
        if let Err(MaskFault::Inner(fault)) = first {
            return Err(MaskFault::Inner(fault));
        }
        self.step(y)?;
        first
    }
}

impl<S: StepSystem> StepSystem for Mask<S> {
    ghost transitions = { λ m. mask_transitions (names_of m.names) (S.transitions m.system) };

    ghost independence = { λ m. mask_independence (names_of m.names)
        (S.transitions m.system) (S.independence m.system) };

    ghost lawful = { λ m. mask_laws (names_of m.names)
        (S.transitions m.system) (S.independence m.system) (S.lawful m.system) };

    fn state(&self, state: &[u8]) -> Result<(), MaskFault> {
        self.system.state(state)
    }

    fn step(&self, step: &[u8]) -> Result<(), MaskFault> {
        self.label(step)?;
        Ok(())
    }

    fn label(&self, step: &[u8]) -> Result<Label, MaskFault> {
        let label = self.system.label(step)?;
        if self.names.hides(label.action) {
            return Err(MaskFault::Masked);
        }
        Ok(label)
    }

    fn next(&self, state: &[u8], step: &[u8], out: &mut [u8]) -> Result<usize, MaskFault> {
        self.step(step)?;
        self.system.next(state, step, out)
    }

    fn independent(&self, x: &[u8], y: &[u8]) -> Result<bool, MaskFault> {
        self.both_shown(x, y)?;
        self.system.independent(x, y)
    }

    fn residual(&self, x: &[u8], y: &[u8], out: &mut [u8]) -> Result<Option<usize>, MaskFault> {
        self.both_shown(x, y)?;
        self.system.residual(x, y, out)
    }

    fn back(&self, x: &[u8], z: &[u8], out: &mut [u8]) -> Result<Option<usize>, MaskFault> {
        self.both_shown(x, z)?;
        self.system.back(x, z, out)
    }
}
