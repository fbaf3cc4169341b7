ghost use Rattle.std.specs.Prelude.{◌≡◌, ℕ, ◌≤◌, ◌<◌, ◌+◌, ◌^◌, ◌++◌, ◌∷◌, [], pos, neg_ℤ, ◌≤ℤ◌, ◌<ℤ◌, length, vec_len, vec_capacity};
ghost use Rattle.std.specs.Fmt.{signed_decimal};
ghost use Rattle.array_bytes.specs.Machine.Lines.{parting_at};

use itoa::Buffer;

/// The bytes of the longest cell of a text and of what stands before it.
pub const LONGEST_CELL: usize = 41;

// Appends bytes, for which there is room.
pub(crate) fn append(out: &mut Vec<u8>, bytes: &[u8])
    requires { vec_len out.old + length bytes.now ≤ vec_capacity out.old }
    ensures put { out.new.items ≡ out.old.items ++ bytes.now }
    ensures len { vec_len out.new ≡ vec_len out.old + length bytes.now }
    ensures capacity { vec_capacity out.old ≤ vec_capacity out.new }
{
    match out.extend_from_slice(bytes) {
        Ok(()) => {}
        Err(_) => unreachable!(),
    }
}

// Appends what stands before a cell: nothing before the first, a line feed at the beginning of a line, else a blank.
fn put_parting(out: &mut Vec<u8>, begun: bool, column: u64)
    requires { vec_len out.old < vec_capacity out.old }
    ensures put { out.new.items ≡ out.old.items ++ parting_at begun column }
    ensures few { vec_len out.new ≤ vec_len out.old + 1 }
    ensures more { vec_len out.old ≤ vec_len out.new }
    ensures capacity { vec_capacity out.old ≤ vec_capacity out.new }
{
    if begun {
        append(out, if column == 0 { b"\n" } else { b" " });
    }
}

/// Appends a cell to a text: what stands before it, and the cell in decimal. `begun` says whether there are cells
/// before it, and `column` how many of them stand in its line. Its magnitude is at most 2^64, and there is room for the
/// longest.
pub fn put_text(out: &mut Vec<u8>, begun: bool, column: u64, cell: i128)
    requires room { vec_len out.old + 41 ≤ vec_capacity out.old }
    requires from { neg_ℤ (pos (2 ^ 64)) ≤ℤ cell }
    requires below { cell <ℤ pos (2 ^ 64) }
    ensures put { out.new.items ≡ out.old.items ++ (parting_at begun column ++ signed_decimal cell) }
    ensures few { vec_len out.new ≤ vec_len out.old + 41 }
    ensures some { vec_len out.old < vec_len out.new }
    ensures capacity { vec_capacity out.old ≤ vec_capacity out.new }
{
    put_parting(out, begun, column);
    let mut buffer = Buffer::new();
    append(out, buffer.format(cell).as_bytes());
}

/// Appends the end of a text that has a cell: a line feed, for which there is room.
pub fn end_text(out: &mut Vec<u8>)
    requires { vec_len out.old < vec_capacity out.old }
    ensures put { out.new.items ≡ out.old.items ++ 10 ∷ [] }
    ensures few { vec_len out.new ≡ vec_len out.old + 1 }
    ensures capacity { vec_capacity out.old ≤ vec_capacity out.new }
{
    append(out, b"\n");
}
