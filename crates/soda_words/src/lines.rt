ghost use Rattle.std.specs.Prelude.{◌≡◌, ◌<◌, ◌^◌, length, option_map};
ghost use Rattle.soda_words.specs.Tokens.{end_line, in_comment_behind, line_behind, not_ascii};

// The number of the line of the byte behind one.
pub(crate) fn line_behind(line: u64, byte: u8) -> u64
    requires { line < 2 ^ 63 }
    ensures { result ≡ line_behind line byte }
{
    if byte == 10 { line + 1 } else { line }
}

/// The number of the line where a text ends, from 1.
pub fn end_line(text: &[u8]) -> u64
    ensures { result ≡ end_line text.now }
{
    let mut line = 1;
    for byte in text {
        line = line_behind(line, *byte);
    }
    line
}

// Whether the byte behind one stands in a comment.
fn in_comment_behind(in_comment: bool, byte: u8) -> bool
    ensures { result ≡ in_comment_behind in_comment byte }
{
    byte != 10 && (in_comment || byte == 35)
}

/// The number of the line of the first byte of 128 or more that stands in no comment, from 1.
pub fn not_ascii(text: &[u8]) -> Option<u64>
    ensures { result ≡ not_ascii text.now }
{
    let mut line = 1;
    let mut in_comment = false;
    for byte in text {
        if *byte >= 128 && !in_comment {
            return Some(line);
        }
        line = line_behind(line, *byte);
        in_comment = in_comment_behind(in_comment, *byte);
    }
    None
}
