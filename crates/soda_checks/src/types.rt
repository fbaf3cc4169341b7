ghost use Rattle.std.specs.Prelude.{◌≡◌, true, false, option_map, Option, List, ℕ, ◌≤◌, ◌^◌, pos};
ghost use Rattle.soda_checks.specs.Types.{is_float, type_of, width_of};

use soda_words::{Ty, behind, number};

/// Whether a word begins with the word of a float type: `float`, `half` or `double`.
pub fn is_float(word: &[u8]) -> bool
    ensures { result ≡ is_float word.now }
{
    behind(b"float", word).is_some()
        || behind(b"half", word).is_some()
        || behind(b"double", word).is_some()
}

// The width that digits write, if it is from the least to 64.
fn width_of(least: u64, digits: &[u8]) -> Option<u64>
    ensures { result ≡ width_of least digits.now }
{
    match number(digits) {
        Some(width) => {
            if least <= width && width <= 64 {
                Some(width)
            } else {
                None
            }
        }
        None => None,
    }
}

/// The integer type that a word stands for: `int` and a width from 2 to 64, or `uint` and one from 1
/// to 64, with no leading zero; None for any other word.
pub fn type_of(word: &[u8]) -> Option<Ty>
    ensures { result ≡ type_of word.now }
{
    if let Some(digits) = behind(b"int", word) {
        if let Some(width) = width_of(2, digits) {
            return Ty::new(true, width as u8);
        }
    }
    if let Some(digits) = behind(b"uint", word) {
        if let Some(width) = width_of(1, digits) {
            return Ty::new(false, width as u8);
        }
    }
    None
}
