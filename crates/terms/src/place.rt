// Where a string fits no more.
ghost use Rattle.std.specs.Prelude.{◌≡◌, ◌<◌, ◌^◌, length};
ghost use Rattle.ccs.specs.System.{past};

// The place of the first byte that fits none, where the byte at the limit fits none either;
// none where all fit.
pub(crate) fn past(limit: usize, text: &[u8], fault: Option<usize>) -> Option<u16>
    requires { limit < 2 ^ 16 }
    ensures { result ≡ past limit text.now fault }
{
    match fault {
        // It fits, so no `try_from`: it is at most the limit.
        Some(place) => Some(place.min(limit) as u16),
        None => {
            if text.len() <= limit {
                None
            } else {
                Some(limit as u16)
            }
        }
    }
}
