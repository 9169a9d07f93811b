// A state is a byte, a step is a byte, and a step leads to their sum, counted round past 255.
ghost use Rattle.std.specs.Prelude.{◌≡◌, ◌+◌, ◌%◌, [], ◌∷◌, slice_index};
ghost use Rattle.std.proofs.Common.{rules};
ghost use Rattle.toys.specs.Sum.{read_byte, state_byte, step_byte, sum_transitions, sum_independence};

use crate::relation::Relation;
use byte_strings::buffer;
use steps::answer::put_step_if;
use steps::fault::{MaskFault, SystemFault};
use steps::label::Label;
use steps::system::StepSystem;

// Steps that are apart may follow each other in either order.
#[derive(Clone, Copy)]
pub struct Sum<R> {
    pub relation: R,
}

impl<R: Relation> StepSystem for Sum<R> {
    ghost transitions = { λ _. sum_transitions };

    ghost independence = { λ _. sum_independence R.apart };

    ghost lawful = { λ _.
        record {
          state_refusals = Prim.search rules;
          step_refusals = Prim.search rules;
          leads = Prim.search rules;
          between_steps = Prim.search rules;
          symmetric = λ x y z h. (y, Prim.search (rules, R.symmetric));
          irreflexive = Prim.search (rules, R.irreflexive);
          diamond = λ a b c x y x' y' h k i j. (
            (slice_index a 0 + slice_index x 0 + slice_index y 0) % 256 ∷ [],
            Prim.search rules,
            Prim.search rules,
          );
          left_step = Prim.search rules;
          left_label = Prim.search rules;
          left_length = Prim.search rules;
          origin = Prim.search rules;
          origin_possible = λ a b c x y z h k i. (
            (slice_index a 0 + slice_index y 0) % 256 ∷ [],
            Prim.search rules,
          );
          cube = λ x y w x' y' w' w'' h i j k. (w, Prim.search rules, Prim.search rules);
          independent_before = λ x y w y' w' v h i j. (y, Prim.search rules);
        } };

    fn state(&self, state: &[u8]) -> Result<(), MaskFault> {
        read_state(state)?;
        Ok(())
    }

    fn step(&self, step: &[u8]) -> Result<(), MaskFault> {
        read_step(step)?;
        Ok(())
    }

    // Every step is silent.
    fn label(&self, step: &[u8]) -> Result<Label, MaskFault> {
        let _ = read_step(step)?;
        Ok(Label { action: 0 })
    }

    fn next(&self, state: &[u8], step: &[u8], out: &mut [u8]) -> Result<usize, MaskFault> {
        let added = read_step(step)?;
        let from = read_state(state)?;
        Ok(buffer::copy(&[from.wrapping_add(added)], out).ok_or(SystemFault::StateTooLong(1))?)
    }

    fn independent(&self, x: &[u8], y: &[u8]) -> Result<bool, MaskFault> {
        let first = read_step(x)?;
        let second = read_step(y)?;
        Ok(self.relation.apart(first, second))
    }

    fn residual(&self, x: &[u8], y: &[u8], out: &mut [u8]) -> Result<Option<usize>, MaskFault> {
        put_step_if(self.independent(x, y)?, x, out)
    }

    fn back(&self, x: &[u8], z: &[u8], out: &mut [u8]) -> Result<Option<usize>, MaskFault> {
        put_step_if(self.independent(x, z)?, z, out)
    }
}

// The byte that a string is, or the place, and no kind of error, where it ends too early or goes on
// too long.
fn read(string: &[u8]) -> Result<u8, u16>
    ensures { result ≡ read_byte string.now }
{
    match string {
        [] => Err(0),
        [byte] => Ok(*byte),
        _ => Err(1),
    }
}

// The byte that a state is.
fn read_state(state: &[u8]) -> Result<u8, MaskFault>
    ensures { result ≡ state_byte (read_byte state.now) }
{
    Ok(read(state).map_err(SystemFault::NoState)?)
}

// The byte that a step is.
fn read_step(step: &[u8]) -> Result<u8, MaskFault>
    ensures { result ≡ step_byte (read_byte step.now) }
{
    Ok(read(step).map_err(SystemFault::NoStep)?)
}
