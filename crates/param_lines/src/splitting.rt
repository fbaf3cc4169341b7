ghost use Rattle.std.specs.Prelude.{◌≡◌, ◌≤◌, ◌<◌, [], ◌∷◌, length, take, drop, IfSome, IfNone};
ghost use Rattle.array_bytes.specs.Runs.{is_space, runs};
ghost use Rattle.param_lines.specs.Lines.{lines};
ghost use Rattle.param_lines.specs.pieces.Fronts.{line_front, line_rest, run_front, run_rest, space_rest};

// Whether a byte is white space: tab, line feed, form feed, carriage return or blank.
fn is_space(byte: u8) -> bool
    ensures { result ≡ is_space byte }
{
    byte == 9 || byte == 10 || byte == 12 || byte == 13 || byte == 32
}

// How many bytes stand before the first line feed.
fn line_len(bytes: &[u8]) -> usize
    ensures within { result ≤ length bytes.now }
    ensures front { take result bytes.now ≡ line_front bytes.now }
    ensures rest { drop result bytes.now ≡ line_rest bytes.now }
{
    let mut count = 0;
    while count < bytes.len() && bytes[count] != 10 {
        count += 1;
    }
    count
}

// How many bytes of white space stand in front.
fn space_len(bytes: &[u8]) -> usize
    ensures within { result ≤ length bytes.now }
    ensures rest { drop result bytes.now ≡ space_rest bytes.now }
{
    let mut count = 0;
    while count < bytes.len() && is_space(bytes[count]) {
        count += 1;
    }
    count
}

// How many bytes stand before the first white space.
fn run_len(bytes: &[u8]) -> usize
    ensures within { result ≤ length bytes.now }
    ensures front { take result bytes.now ≡ run_front bytes.now }
    ensures rest { drop result bytes.now ≡ run_rest bytes.now }
{
    let mut count = 0;
    while count < bytes.len() && !is_space(bytes[count]) {
        count += 1;
    }
    count
}

/// The first line of a text that isn't empty, without its line feed, and what follows the line feed.
pub fn split_line(text: &[u8]) -> (&[u8], &[u8])
    requires { 0 < length text.now }
    ensures lines { lines text.now ≡ result.0.now ∷ lines result.1.now }
    ensures shorter { length result.1.now < length text.now }
{
    let end = line_len(text);
    if end < text.len() {
        (&text[..end], &text[end + 1..])
    } else {
        (text, &[])
    }
}

// The run at the front, and what follows it.
fn split_run(text: &[u8]) -> (&[u8], &[u8])
    ensures front { result.0.now ≡ run_front text.now }
    ensures rest { result.1.now ≡ run_rest text.now }
{
    text.split_at(run_len(text))
}

// What follows the white space in front.
fn past_space(text: &[u8]) -> &[u8]
    ensures { result.now ≡ space_rest text.now }
{
    &text[space_len(text)..]
}

/// The first run of bytes that aren't white space, and what follows it, and None where there is no such run.
pub fn next_run(text: &[u8]) -> Option<(&[u8], &[u8])>
    ensures none { IfNone result (runs text.now ≡ []) }
    ensures found { IfSome result (λ x. runs text.now ≡ x.0.now ∷ runs x.1.now) }
    ensures shorter { IfSome result (λ x. length x.1.now < length text.now) }
{
    let text = past_space(text);
    if text.len() == 0 {
        None
    } else {
        Some(split_run(text))
    }
}
