// Hexadecimal text: bytes written as pairs of digits, and lines of digits read back into bytes.
// It rests on `byte_strings`.
// By hand and not by the kit's `hex`: into a lent buffer that writes small letters only; it reads
// into a buffer of just the right length only; and it leaves open what a bad line puts there.
#![tactic(auto)]

ghost use Rattle.std.specs.Prelude.{◌≡◌, length, take};
ghost use Rattle.byte_strings.specs.Buffer.{over, count};
ghost use Rattle.hexadecimal.specs.Hex.{write_answer, buffer_after_write, sound_bytes, read_answer, ReadsBack, ReadsWhatIsSpelled, CasesReadAlike};

mod digits;
pub mod line;

// Writes two capital digits a byte over the front of `out` and answers how many digits;
// none, and `out` as it was, where they do not fit.
pub fn write(bytes: &[u8], out: &mut [u8]) -> Option<usize>
    ensures answer { result ≡ write_answer bytes.now (length out.old) }
    ensures buffer { out.new ≡ buffer_after_write bytes.now out.old }
    ensures round { ReadsBack bytes.now }
{
    if out.len() / 2 < bytes.len() {
        return None;
    }
    // By index: after a loop over `as_chunks_mut`, `chunks_exact_mut` or `split_first_chunk_mut`,
    // or down `[high, low, rest @ ..]`, a proof knows no byte of `out`; and `iter_mut` with two
    // digits moved on by hand is no plainer.
    for (i, byte) in bytes.iter().enumerate() {
        out[2 * i] = digits::digit(*byte / 16);
        out[2 * i + 1] = digits::digit(*byte % 16);
    }
    Some(2 * bytes.len())
}

// Reads a line into the front of `out`, as many bytes as that holds at most: how many,
// or how many sound ones precede the fault. The error is that number, a place and no kind of error.
pub fn read(line: &[u8], out: &mut [u8]) -> Result<usize, usize>
    ensures answer { result ≡ count (read_answer line.now (length out.old)) }
    ensures buffer { out.new ≡ over (take (length out.old) (sound_bytes line.now)) out.old }
    ensures exactly { ReadsWhatIsSpelled }
    ensures cases { CasesReadAlike }
{
    let n = fill(line, out);
    if line.len() == 2 * n { Ok(n) } else { Err(n) }
}

// Writes the sound bytes of a line over the front of `out`, as many as it holds;
// answers how many.
fn fill(line: &[u8], out: &mut [u8]) -> usize
    ensures answer { result ≡ length (take (length out.old) (sound_bytes line.now)) }
    ensures buffer { out.new ≡ over (take (length out.old) (sound_bytes line.now)) out.old }
{
    let mut bytes = line.as_chunks::<2>().0.iter().map_while(digits::byte);
    for (n, place) in out.iter_mut().enumerate() {
        let Some(byte) = bytes.next() else {
            return n;
        };
        *place = byte;
    }
    out.len()
}
