ghost use Rattle.std.specs.Prelude.{◌≡◌, option_map, Option, List, ℕ};
ghost use Rattle.std.specs.List.{list_all};
ghost use Rattle.soda_words.specs.Names.{is_letter, is_digit, begins_name, is_word_byte, is_name, behind, is_some_digits, is_numbered, may_be_numbered, is_cast_word, is_word, is_reserved, is_free_name};

use crate::MOST_NAME;

fn is_letter(b: u8) -> bool
    ensures { result ≡ is_letter b }
{
    65 <= b && b <= 90 || 97 <= b && b <= 122
}

fn is_digit(b: u8) -> bool
    ensures { result ≡ is_digit b }
{
    48 <= b && b <= 57
}

fn begins_name(b: u8) -> bool
    ensures { result ≡ begins_name b }
{
    is_letter(b) || b == 95
}

/// Whether a name may go on with this byte: a letter, a digit or `_`.
pub fn is_word_byte(b: u8) -> bool
    ensures { result ≡ is_word_byte b }
{
    begins_name(b) || is_digit(b)
}

fn all_word_bytes(bytes: &[u8]) -> bool
    ensures { result ≡ list_all is_word_byte bytes.now }
{
    bytes.iter().all(|b| is_word_byte(*b))
}

fn all_digits(bytes: &[u8]) -> bool
    ensures { result ≡ list_all is_digit bytes.now }
{
    bytes.iter().all(|b| is_digit(*b))
}

/// Whether the bytes are a name: a letter or `_`, then letters, digits and `_`, at most 64 bytes.
pub fn is_name(bytes: &[u8]) -> bool
    ensures { result ≡ is_name bytes.now }
{
    match bytes {
        [] => false,
        [b, rest @ ..] => begins_name(*b) && all_word_bytes(rest) && rest.len() < MOST_NAME,
    }
}

/// What follows this front, if the bytes begin with it.
pub fn behind<'a>(front: &[u8], bytes: &'a [u8]) -> Option<&'a [u8]>
    ensures { option_map (λ rest. rest.now) result ≡ behind front.now bytes.now }
{
    match front {
        [] => Some(bytes),
        [p, front @ ..] => match bytes {
            [] => None,
            [b, rest @ ..] => { if *p == *b { behind(front, rest) } else { None } }
        },
    }
}

/// Whether the bytes are one digit or more, and nothing else.
pub fn is_some_digits(bytes: &[u8]) -> bool
    ensures { result ≡ is_some_digits bytes.now }
{
    match bytes {
        [] => false,
        [b, rest @ ..] => is_digit(*b) && all_digits(rest),
    }
}

fn is_numbered(word: &[u8], bytes: &[u8]) -> bool
    ensures { result ≡ is_numbered word.now bytes.now }
{
    match behind(word, bytes) {
        None => false,
        Some(digits) => is_some_digits(digits),
    }
}

fn may_be_numbered(word: &[u8], bytes: &[u8]) -> bool
    ensures { result ≡ may_be_numbered word.now bytes.now }
{
    match behind(word, bytes) {
        None => false,
        Some(digits) => all_digits(digits),
    }
}

/// Whether the bytes are a word for a type: `int` or `uint` and digits, or `float`, `half` or `double`
/// and digits or nothing.
pub fn is_cast_word(bytes: &[u8]) -> bool
    ensures { result ≡ is_cast_word bytes.now }
{
    is_numbered(b"int", bytes)
        || is_numbered(b"uint", bytes)
        || may_be_numbered(b"float", bytes)
        || may_be_numbered(b"half", bytes)
        || may_be_numbered(b"double", bytes)
}

/// Whether the bytes are this word.
pub fn is_word(word: &[u8], bytes: &[u8]) -> bool
    ensures { result ≡ is_word word.now bytes.now }
{
    match behind(word, bytes) {
        None => false,
        Some(rest) => rest.len() == 0,
    }
}

/// Whether no tensor or param may have this name: a cast word, `min`, `max`, `abs` or `select`.
pub fn is_reserved(bytes: &[u8]) -> bool
    ensures { result ≡ is_reserved bytes.now }
{
    is_cast_word(bytes)
        || is_word(b"min", bytes)
        || is_word(b"max", bytes)
        || is_word(b"abs", bytes)
        || is_word(b"select", bytes)
}

/// Whether a tensor or a param may have this name: a name that isn't reserved.
pub fn is_free_name(bytes: &[u8]) -> bool
    ensures { result ≡ is_free_name bytes.now }
{
    is_name(bytes) && !is_reserved(bytes)
}
