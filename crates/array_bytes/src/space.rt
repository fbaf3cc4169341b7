ghost use Rattle.std.specs.Prelude.{◌≡◌};
ghost use Rattle.array_bytes.specs.Runs.{is_space};

// Whether a byte is white space: tab, line feed, form feed, carriage return or blank.
#[inline]
pub(crate) fn is_space(byte: u8) -> bool
    ensures { result ≡ is_space byte }
{
    byte == 9 || byte == 10 || byte == 12 || byte == 13 || byte == 32
}
