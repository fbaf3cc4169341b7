ghost use Rattle.std.specs.Prelude.{◌≡◌, ◌≢◌, ℕ, ◌<◌, ◌≤◌, ◌^◌, ◌++◌, ◌∷◌, [], List, codes, true, false, length, slice_index, take, MatchOption};
ghost use Rattle.std.specs.Fmt.{decimal};
ghost use Rattle.std.specs.List.{list_all};
ghost use Rattle.soda_words.specs.Names.{is_digit};
ghost use Rattle.design_lines.specs.Lines.{GoesOn};
ghost use Rattle.design_lines.specs.machine.Reading.{begins_apart, two_numbered};

use soda_words::number;

/// What follows this front, if the text begins with it.
pub fn behind<'a>(front: &[u8], text: &'a [u8]) -> Option<&'a [u8]>
    ensures { MatchOption result ((rest : List ℕ) → text.now ≢ front.now ++ rest) (λ rest.
        text.now ≡ front.now ++ rest.now) }
{
    text.strip_prefix(front)
}

/// What follows this line, if the text goes on with it.
pub fn behind_line<'a>(line: &[u8], text: &'a [u8]) -> Option<&'a [u8]>
    ensures { MatchOption result (GoesOn (line.now ∷ []) text.now → ⊥) (λ rest.
        text.now ≡ (line.now ++ codes "\n") ++ rest.now) }
{
    match behind(line, text) {
        Some(rest) => behind(b"\n", rest),
        None => None,
    }
}

// How many digits the text begins with.
fn digit_count(text: &[u8]) -> usize
    ensures within { result ≤ length text.now }
    ensures digits { list_all is_digit (take result text.now) ≡ true }
    ensures end { result < length text.now → is_digit (slice_index text.now result) ≡ false }
{
    let mut count = 0;
    while count < text.len() && text[count].is_ascii_digit() {
        count += 1;
    }
    count
}

/// A number that stands in a text, and what follows it.
#[derive(Clone, Copy)]
pub struct Told<'a> {
    /// The number.
    pub number: u64,
    /// What follows it and the piece behind it.
    pub rest: &'a [u8],
}

/// The number that the text begins with, and what follows it and this piece, which begins with no digit.
pub fn number_behind<'a>(piece: &[u8], text: &'a [u8]) -> Option<Told<'a>>
    requires { begins_apart piece.now ≡ true }
    ensures { MatchOption result
        ((n : ℕ) (rest : List ℕ) → n < 2 ^ 64 → text.now ≢ decimal n ++ (piece.now ++ rest))
        (λ told. (told.number < 2 ^ 64) × (text.now ≡ decimal told.number ++ (piece.now ++ told.rest.now))) }
{
    let count = digit_count(text);
    let (digits, behind_digits) = text.split_at(count);
    let Some(number) = number(digits) else {
        return None;
    };
    match behind(piece, behind_digits) {
        Some(rest) => Some(Told { number, rest }),
        None => None,
    }
}

/// Two numbers that end a line, and what follows the line.
#[derive(Clone, Copy)]
pub struct Pair<'a> {
    /// The one before the last.
    pub first: u64,
    /// The last.
    pub second: u64,
    /// What follows the line.
    pub rest: &'a [u8],
}

/// The two numbers at the end of a line that has this front and this text between them, which begins with no digit, and
/// what follows the line.
pub fn two_behind<'a>(front: &[u8], between: &[u8], text: &'a [u8]) -> Option<Pair<'a>>
    requires { begins_apart between.now ≡ true }
    ensures { MatchOption result
        ((a b : ℕ) → a < 2 ^ 64 → b < 2 ^ 64 → GoesOn (two_numbered front.now between.now a b ∷ []) text.now → ⊥)
        (λ told. (told.first < 2 ^ 64) × (told.second < 2 ^ 64)
        × (text.now ≡ (two_numbered front.now between.now told.first told.second ++ codes "\n") ++ told.rest.now)) }
{
    let Some(numbers) = behind(front, text) else {
        return None;
    };
    let Some(one) = number_behind(between, numbers) else {
        return None;
    };
    match number_behind(b"\n", one.rest) {
        Some(last) => Some(Pair {
            first: one.number,
            second: last.number,
            rest: last.rest,
        }),
        None => None,
    }
}
