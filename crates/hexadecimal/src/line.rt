// Lines of hexadecimal text, each with its line end.
ghost use Rattle.std.specs.Prelude.{◌≡◌, ◌++◌, length};
ghost use Rattle.byte_strings.specs.Buffer.{copy_length, buffer_after_copy};
ghost use Rattle.hexadecimal.specs.Line.{line};

// Writes a line of two strings, one behind the other, over the front of `out`;
// answers its length, or none, and `out` as it was, where it does not fit.
pub fn write(front: &[u8], back: &[u8], out: &mut [u8]) -> Option<usize>
    ensures answer { result ≡ copy_length (line (front.now ++ back.now)) (length out.old) }
    ensures buffer { out.new ≡ buffer_after_copy (line (front.now ++ back.now)) out.old }
{
    let n = front.len();
    let m = back.len();
    if n + m >= out.len().div_ceil(2) {
        return None;
    }
    let _ = crate::write(front, out);
    let _ = crate::write(back, &mut out[2 * n..]);
    out[2 * (n + m)] = b'\n';
    Some(2 * (n + m) + 1)
}
