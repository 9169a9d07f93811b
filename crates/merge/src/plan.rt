// What two designers do.

// The first runs some steps from the start and swaps two of them, the second runs others from the same start; the joined run goes on by a last step.
#[derive(Clone, Copy)]
pub(crate) struct Plan<'a> {
    pub(crate) start: &'a [u8],
    pub(crate) first: &'a [&'a [u8]],
    pub(crate) swapped: u8,
    pub(crate) second: &'a [&'a [u8]],
    pub(crate) last: &'a [u8],
}
