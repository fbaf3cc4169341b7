ghost use Rattle.std.specs.Prelude.{◌≡◌, ◌≤◌, ◌^◌, true, min};
ghost use Rattle.std.specs.List.{list_all};
ghost use Rattle.soda_words.specs.Names.{is_digit};
ghost use Rattle.soda_words.specs.Tokens.{value_behind};
ghost use Rattle.array_bytes.specs.Values.{begins_minus, behind_sign, with_sign};
ghost use Rattle.param_lines.specs.pieces.Slots.{value_in};

use int_types::in_range;
use soda_words::{Ty, is_some_digits};

// No type has a number so far from 0.
const FAR: u128 = 1 << 65;

fn begins_minus(word: &[u8]) -> bool
    ensures { result ≡ begins_minus word.now }
{
    match word {
        [] => false,
        [b, ..] => *b == 45,
    }
}

fn behind_sign(word: &[u8]) -> &[u8]
    ensures { result.now ≡ behind_sign word.now }
{
    match word {
        [] => word,
        [b, rest @ ..] => { if *b == 45 { rest } else { word } }
    }
}

// The number that digits write, and FAR for all beyond it.
fn near_number(digits: &[u8]) -> u128
    requires { list_all is_digit digits.now ≡ true }
    ensures { result ≡ min (value_behind 0 digits.now) (2 ^ 65) }
{
    let mut number: u128 = 0;
    for digit in digits {
        number = (number * 10 + (*digit - 48) as u128).min(FAR);
    }
    number
}

fn with_sign(minus: bool, magnitude: u128) -> i128
    requires { magnitude ≤ 2 ^ 65 }
    ensures { result ≡ with_sign minus magnitude }
{
    let magnitude = magnitude as i128;
    if minus { -magnitude } else { magnitude }
}

/// The number of the type that a word writes: an optional `-` and one or more digits.
pub(crate) fn value_in(ty: Ty, word: &[u8]) -> Option<i128>
    ensures { result ≡ value_in ty word.now }
{
    let _bits = ty.bits();
    let digits = behind_sign(word);
    if !is_some_digits(digits) {
        return None;
    }
    let value = with_sign(begins_minus(word), near_number(digits));
    if in_range(ty, value) {
        Some(value)
    } else {
        None
    }
}
