ghost use Rattle.std.specs.Prelude.{◌≡◌, ◌≤◌, ◌^◌, true, false, MatchOption};
ghost use Rattle.std.specs.List.{list_all};
ghost use Rattle.soda_words.specs.Names.{is_digit};
ghost use Rattle.soda_words.specs.Tokens.{value_behind, begins_with_zero, is_number};

use crate::is_some_digits;

// The number that digits write, if it is below 2 ^ 64.
fn value(digits: &[u8]) -> Option<u64>
    requires { list_all is_digit digits.now ≡ true }
    ensures { MatchOption result (2 ^ 64 ≤ value_behind 0 digits.now) (λ n. n ≡ value_behind 0 digits.now) }
{
    let mut number: u64 = 0;
    for digit in digits {
        number = number.checked_mul(10)?.checked_add((*digit - 48) as u64)?;
    }
    Some(number)
}

fn begins_with_zero(bytes: &[u8]) -> bool
    ensures { result ≡ begins_with_zero bytes.now }
{
    match bytes {
        [] => false,
        [b, ..] => *b == 48,
    }
}

/// The number that the bytes are, if they are one: `0`, or a digit from 1 to 9 and more digits,
/// below 2^64.
pub fn number(bytes: &[u8]) -> Option<u64>
    ensures { MatchOption result (is_number bytes.now ≡ false)
        (λ n. (is_number bytes.now ≡ true) × (n ≡ value_behind 0 bytes.now)) }
{
    if !is_some_digits(bytes) || begins_with_zero(bytes) && bytes.len() != 1 {
        return None;
    }
    value(bytes)
}
