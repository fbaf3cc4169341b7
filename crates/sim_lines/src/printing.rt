ghost use Rattle.std.specs.Prelude.{◌≡◌, ◌++◌, OnOk};
ghost use Rattle.sim_lines.specs.Printed.{cycle_line, end_lines};

use crate::NoMemory;
use itoa::{Buffer, Integer};

// Adds a word and the number behind it.
fn add_field<I: Integer>(text: &mut Vec<u8>, word: &[u8], number: I) -> Result<(), NoMemory>
    ensures { OnOk result (text.new.items ≡ text.old.items ++ (word.now ++ I.text number)) }
{
    let mut buffer = Buffer::new();
    text.extend_from_slice(word)?;
    text.extend_from_slice(buffer.format(number).as_bytes())
}

/// Adds the line of a cycle: its number, from 0, how many modules fired, and how many had a firing left and didn't
/// fire.
/// The only error is that memory ran out.
pub fn add_cycle_line(text: &mut Vec<u8>, cycle: u64, fired: u32, held: u32) -> Result<(), NoMemory>
    ensures { OnOk result (text.new.items ≡ text.old.items ++ cycle_line cycle fired held) }
{
    add_field(text, b"cycle ", cycle)?;
    add_field(text, b" fired ", fired)?;
    add_field(text, b" held ", held)?;
    text.extend_from_slice(b"\n")
}

/// Adds the last lines: how many cycles there were, and the total storage in bits. The only error is that memory ran
/// out.
pub fn add_end_lines(text: &mut Vec<u8>, cycles: u64, bits: u128) -> Result<(), NoMemory>
    ensures { OnOk result (text.new.items ≡ text.old.items ++ end_lines cycles bits) }
{
    add_field(text, b"cycles ", cycles)?;
    add_field(text, b"\nstorage ", bits)?;
    text.extend_from_slice(b"\n")
}
