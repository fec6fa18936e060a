// Numbers of at most nine digits.
ghost use Rattle.std.specs.Prelude.{◌≡◌, ◌<◌, ◌≤◌, ◌==◌, ◌&&◌, ◌++◌, ◌↔◌, not, nat_le, ℕ, List, IsTrue, IfSome, IfNone, true, false, length, take, drop, slice_index};
ghost use Rattle.std.specs.Fmt.{decimal};
ghost use Rattle.std.specs.Str.{all_ascii_digits};
ghost use Rattle.version_range.specs.Version.{IsNumber, begins_with_digit, number_after};
ghost use Rattle.version_range.specs.Number.{is_count};

/// The number at the start of a text, and the rest. A number has one to nine digits and no leading zero
/// unless it is `0`, and no digit follows it.
pub fn number_at(text: &[u8]) -> Option<(u32, &[u8])>
    ensures found { IfSome result (λ p. IsNumber p.0
        × (text.now ≡ decimal p.0 ++ p.1.now) × (begins_with_digit p.1.now ≡ false)) }
    ensures within { IfSome result (λ p. length p.1.now < length text.now) }
    ensures none { IfNone result ((n : ℕ) (rest : List ℕ) → IsNumber n
        → text.now ≡ decimal n ++ rest → begins_with_digit rest ≡ true) }
{
    let count = digit_count(text);
    let (digits, rest) = text.split_at(count);
    if is_number(digits) {
        Some((number_of(digits), rest))
    } else {
        None
    }
}

// The number of leading digits.
fn digit_count(text: &[u8]) -> usize
    ensures within { result ≤ length text.now }
    ensures digits { all_ascii_digits (take result text.now) ≡ true }
    ensures rest { begins_with_digit (drop result text.now) ≡ false }
{
    for (i, b) in text.iter().enumerate() {
        if !b.is_ascii_digit() {
            return i;
        }
    }
    text.len()
}

fn is_number(digits: &[u8]) -> bool
    ensures { IsTrue result ↔ ((0 < length digits.now) × (length digits.now ≤ 9)
        × (slice_index digits.now 0 ≡ 48 → length digits.now ≡ 1)) }
{
    match digits {
        [] => false,
        [_] => true,
        [first, ..] => *first != b'0' && digits.len() <= 9,
    }
}

/// Whether a text is one to nine digits. Leading zeros are allowed.
pub fn is_count(text: &[u8]) -> bool
    ensures { result ≡ is_count text.now }
{
    is_short(text.len()) && are_digits(text)
}

fn is_short(length: usize) -> bool
    ensures { result ≡ (not (length == 0) && nat_le length 9) }
{
    length != 0 && length <= 9
}

fn are_digits(text: &[u8]) -> bool
    ensures { result ≡ all_ascii_digits text.now }
{
    for byte in text {
        if !byte.is_ascii_digit() {
            return false;
        }
    }
    true
}

/// The value of these digits.
pub fn number_of(digits: &[u8]) -> u32
    requires digits { all_ascii_digits digits.now ≡ true }
    requires short { length digits.now ≤ 9 }
    ensures { result ≡ number_after 0 digits.now }
{
    let mut number = 0;
    for b in digits {
        number = 10 * number + u32::from(*b - b'0');
    }
    number
}
