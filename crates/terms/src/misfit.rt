// The place of a node that does not fit, told in the step that has it as a part.
ghost use Rattle.std.specs.Prelude.{◌≡◌, ℕ, ◌+◌, ◌<◌, ◌^◌};
ghost use Rattle.residuals.specs.declared.sink.Sink.{Sink};
ghost use Rattle.terms.specs.Follow.{outcome, further, WithinStep};

// The same, but for a misfit that is so many bytes further on.
#[tactic(auto, unfolding(crate::specs::Follow::further))]
pub(crate) fn further(bytes: usize, moved: Result<(), usize>) -> Result<(), usize>
    requires few { bytes < 2 ^ 63 }
    requires near { WithinStep moved (2 ^ 63) }
    ensures answer { (k : Sink) → outcome result k ≡ further bytes (outcome moved k) }
    ensures within { (n : ℕ) → WithinStep moved n → WithinStep result (bytes + n) }
{
    match moved {
        Ok(()) => Ok(()),
        Err(place) => Err(bytes + place),
    }
}
