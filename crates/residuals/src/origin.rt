// The step of which another is left after a third.
ghost use Rattle.std.specs.Prelude.{◌≡◌, is_ok, IsTrue};
ghost use Rattle.byte_strings.specs.Lent.{part_view};
ghost use Rattle.ccs.specs.Reading.{read_proof};
ghost use Rattle.residuals.specs.Sink.{onto, outcome};
ghost use Rattle.residuals.specs.Steps.{origin_of, beside_of, PartRead};

use crate::sink::Sink;
use ccs::node_bytes::{BOTH, CHOOSE_LEFT, CHOOSE_RIGHT, LEFT, RIGHT, UNDER};
use nodes::proof::Proof;

// Writes the step, independent of the proof x, of which the proof z is left after x.
// None where there is none: what the sink then holds is not told.
#[cycle(origin)]
pub fn origin(x: &[u8], z: &[u8], sink: &mut Sink) -> Option<()>
    requires first { IsTrue (is_ok (read_proof x.now)) }
    requires rest { IsTrue (is_ok (read_proof z.now)) }
    ensures { outcome result sink.new ≡ onto sink.old (origin_of x.now z.now) }
{
    let node = Proof::of(x);
    // A choice that x makes was open before it, so the step had a node for it.
    if let Some(part) = node.left_branch() {
        sink.byte(CHOOSE_LEFT);
        return origin(part, z, sink);
    }
    if let Some(part) = node.right_branch() {
        sink.byte(CHOOSE_RIGHT);
        return origin(part, z, sink);
    }
    match Proof::of(z) {
        Proof::Left(part) => {
            let (left, _) = node.sides()?;
            sink.byte(LEFT);
            before(left, part, sink)
        }
        Proof::Right(part) => {
            let (_, right) = node.sides()?;
            sink.byte(RIGHT);
            before(right, part, sink)
        }
        Proof::Both(first, second) => {
            let (left, right) = node.sides()?;
            sink.byte(BOTH);
            before(left, first, sink)?;
            before(right, second, sink)
        }
        Proof::Under(name, part) => {
            let moved = node.under(name)?;
            sink.byte(UNDER);
            sink.byte(name);
            origin(moved, part, sink)
        }
        Proof::Act(_) | Proof::ChooseLeft(_) | Proof::ChooseRight(_) => None,
    }
}

// Writes the part of which another is left after what was done on its side, which may be nothing.
#[cycle(origin)]
fn before(done: Option<&[u8]>, part: &[u8], sink: &mut Sink) -> Option<()>
    requires done { PartRead (part_view done) }
    requires part { IsTrue (is_ok (read_proof part.now)) }
    ensures { outcome result sink.new
        ≡ onto sink.old (beside_of (λ x. origin_of x part.now) part.now (part_view done.entry)) }
{
    match done {
        Some(moved) => origin(moved, part, sink),
        None => {
            sink.bytes(part);
            Some(())
        }
    }
}
