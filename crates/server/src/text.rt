// Answer lines.
ghost use Rattle.std.specs.Prelude.{◌≡◌, ◌≤◌, ◌∷◌, ◌++◌, length};
ghost use Rattle.byte_strings.specs.Buffer.{over};
ghost use Rattle.hexadecimal.specs.Line.{line};
ghost use Rattle.server.specs.Text.{refusal_bytes, beneath_bytes, told_line};

use crate::fault::Fault;
use hexadecimal::line;
use steps::fault::Refusal;

// The longest text of an answer.
pub const TEXT_LIMIT: usize = 5222;

// An accepted call: a zero byte and what it answers.
#[tactic(auto, using(hexadecimal::proofs::Lines::length_line))]
pub(crate) fn accept(bytes: &[u8], out: &mut [u8; TEXT_LIMIT]) -> usize
    requires { length bytes.now ≤ 256 }
    ensures answer { result ≡ length (line (0 ∷ bytes.now)) }
    ensures buffer { out.new ≡ over (line (0 ∷ bytes.now)) out.old }
{
    line::write(&[0], bytes, out).unwrap()
}

// A refused line.
pub(crate) fn refuse(fault: Fault, out: &mut [u8; TEXT_LIMIT]) -> usize
    ensures answer { result ≡ length (told_line fault) }
    ensures buffer { out.new ≡ over (told_line fault) out.old }
{
    match fault {
        Fault::Frame(fault) => tell(fault.into(), None, out),
        Fault::Call(fault) => tell(fault.into(), fault.cause(), out),
    }
}

// A refusal, with the one that stopped a replay beneath it.
fn tell(refusal: Refusal, cause: Option<Refusal>, out: &mut [u8; TEXT_LIMIT]) -> usize
    ensures answer { result ≡ length (line (refusal_bytes refusal ++ beneath_bytes cause)) }
    ensures buffer { out.new ≡ over (line (refusal_bytes refusal ++ beneath_bytes cause)) out.old }
{
    let told: [u8; 4] = refusal.into();
    match cause {
        Some(cause) => {
            let beneath: [u8; 4] = cause.into();
            line::write(&told, &beneath, out).unwrap()
        }
        None => line::write(&told, &[], out).unwrap(),
    }
}
