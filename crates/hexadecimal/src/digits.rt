// The hexadecimal digits.
ghost use Rattle.std.specs.Prelude.{◌≡◌, ◌<◌, slice_index};
ghost use Rattle.hexadecimal.specs.Digits.{digit_of, value_of, byte_of};

// The capital digit of a value below 16.
pub fn digit(value: u8) -> u8
    requires { value < 16 }
    ensures { result ≡ digit_of value }
{
    match value {
        0..=9 => b'0' + value,
        _ => b'A' - 10 + value,
    }
}

// The value of a digit, in either case of its letter.
// By its ranges and not by `to_digit`, which is of a `char` and answers a `u32`: two casts more,
// and one of them narrow.
fn value(digit: u8) -> Option<u8>
    ensures { result ≡ value_of digit }
{
    match digit {
        b'0'..=b'9' => Some(digit - b'0'),
        b'A'..=b'F' => Some(digit - b'A' + 10),
        b'a'..=b'f' => Some(digit - b'a' + 10),
        _ => None,
    }
}

// The byte that two digits spell.
pub fn byte(pair: &[u8; 2]) -> Option<u8>
    ensures { result ≡ byte_of (slice_index pair.now 0) (slice_index pair.now 1) }
{
    let [high, low] = pair;
    Some(16 * value(*high)? + value(*low)?)
}
