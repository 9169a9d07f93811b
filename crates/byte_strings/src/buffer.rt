// Writing to a lent buffer: over its front, or not at all.
ghost use Rattle.std.specs.Prelude.{◌≡◌, length};
ghost use Rattle.byte_strings.specs.Buffer.{copy_length, buffer_after_copy};

// Writes a string over the front of a buffer and answers its length;
// none, and the buffer as it was, where it is too short.
pub fn copy(text: &[u8], out: &mut [u8]) -> Option<usize>
    ensures answer { result ≡ copy_length text.now (length out.old) }
    ensures buffer { out.new ≡ buffer_after_copy text.now out.old }
{
    let n = text.len();
    if n > out.len() {
        return None;
    }
    out[0..n].copy_from_slice(text);
    Some(n)
}
