// A renaming: the system inside, with other names shown.
ghost use Rattle.std.specs.Prelude.{◌≡◌};
ghost use Rattle.actions.specs.Contents.{pairs_of};
ghost use Rattle.layers.specs.Renaming.{renaming_transitions};
ghost use Rattle.layers.specs.Promises.{RenamingAnswers};
ghost use Rattle.layers.specs.Laws.RenamingLaws.{renaming_laws};

use actions::pairs::Pairs;
use steps::fault::MaskFault;
use steps::label::Label;
use steps::system::StepSystem;

// The names that steps show are replaced as the pairs say; what is refused inside is refused.
#[derive(Clone, Copy)]
pub struct Renaming<S> {
    pub system: S,
    pub pairs: Pairs,
}

impl<S: StepSystem> Renaming<S> {
    // Shows other names for those that the system's steps show. Every question else it answers as
    // the system does, and what is refused there is refused.
    pub fn over(system: S, pairs: Pairs) -> Renaming<S>
        ensures system { result.system ≡ system }
        ensures pairs { result.pairs ≡ pairs }
        ensures answers { RenamingAnswers (pairs_of pairs)
            (S.transitions system) (S.independence system)
            (renaming_transitions (pairs_of result.pairs) (S.transitions result.system))
            (S.independence result.system) }
    {
        Renaming { system, pairs }
    }
}

impl<S: StepSystem> StepSystem for Renaming<S> {
    ghost transitions = { λ r. renaming_transitions (pairs_of r.pairs) (S.transitions r.system) };

    ghost independence = { λ r. S.independence r.system };

    ghost lawful = { λ r. renaming_laws (pairs_of r.pairs)
        (S.transitions r.system) (S.independence r.system) (S.lawful r.system) };

    fn state(&self, state: &[u8]) -> Result<(), MaskFault> {
        self.system.state(state)
    }

    fn step(&self, step: &[u8]) -> Result<(), MaskFault> {
        self.system.step(step)
    }

    fn label(&self, step: &[u8]) -> Result<Label, MaskFault> {
        let label = self.system.label(step)?;
        Ok(Label {
            action: self.pairs.replacement(label.action),
        })
    }

    fn next(&self, state: &[u8], step: &[u8], out: &mut [u8]) -> Result<usize, MaskFault> {
        self.system.next(state, step, out)
    }

    fn independent(&self, x: &[u8], y: &[u8]) -> Result<bool, MaskFault> {
        self.system.independent(x, y)
    }

    fn residual(&self, x: &[u8], y: &[u8], out: &mut [u8]) -> Result<Option<usize>, MaskFault> {
        self.system.residual(x, y, out)
    }

    fn back(&self, x: &[u8], z: &[u8], out: &mut [u8]) -> Result<Option<usize>, MaskFault> {
        self.system.back(x, z, out)
    }
}
