// What is left of a step after an independent one.
ghost use Rattle.std.specs.Prelude.{◌≡◌, is_ok, IsTrue};
ghost use Rattle.byte_strings.specs.Lent.{part_view};
ghost use Rattle.ccs.specs.Reading.{read_proof};
ghost use Rattle.residuals.specs.Sink.{onto, outcome};
ghost use Rattle.residuals.specs.Steps.{residual_of, beside_of, PartRead};

use crate::sink::Sink;
use ccs::node_bytes::{BOTH, LEFT, RIGHT, UNDER};
use nodes::proof::Proof;

// Writes what is left of the proof x after the proof y behind what was written.
// None where they are dependent: what the sink then holds is not told.
#[cycle(residual)]
pub fn residual(x: &[u8], y: &[u8], sink: &mut Sink) -> Option<()>
    requires first { IsTrue (is_ok (read_proof x.now)) }
    requires second { IsTrue (is_ok (read_proof y.now)) }
    ensures { outcome result sink.new ≡ onto sink.old (residual_of x.now y.now) }
{
    let other = Proof::of(y);
    match Proof::of(x) {
        Proof::Act(_) => None,
        Proof::Left(part) => {
            let (left, _) = other.sides()?;
            sink.byte(LEFT);
            beside(part, left, sink)
        }
        Proof::Right(part) => {
            let (_, right) = other.sides()?;
            sink.byte(RIGHT);
            beside(part, right, sink)
        }
        Proof::Both(first, second) => {
            let (left, right) = other.sides()?;
            sink.byte(BOTH);
            beside(first, left, sink)?;
            beside(second, right, sink)
        }
        // The other step has made the choice, so there is no node for it any more.
        Proof::ChooseLeft(part) => residual(part, other.left_branch()?, sink),
        Proof::ChooseRight(part) => residual(part, other.right_branch()?, sink),
        Proof::Under(name, part) => {
            let moved = other.under(name)?;
            sink.byte(UNDER);
            sink.byte(name);
            residual(part, moved, sink)
        }
    }
}

// Writes what is left of a part after what the other step does on its side, which may be nothing.
#[cycle(residual)]
fn beside(part: &[u8], other: Option<&[u8]>, sink: &mut Sink) -> Option<()>
    requires part { IsTrue (is_ok (read_proof part.now)) }
    requires other { PartRead (part_view other) }
    ensures { outcome result sink.new
        ≡ onto sink.old (beside_of (residual_of part.now) part.now (part_view other.entry)) }
{
    match other {
        Some(moved) => residual(part, moved, sink),
        None => {
            sink.bytes(part);
            Some(())
        }
    }
}
