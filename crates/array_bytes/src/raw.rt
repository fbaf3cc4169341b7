ghost use Rattle.std.specs.Prelude.{◌≡◌, ℕ, ◌≤◌, ◌<◌, ◌+◌, ◌*◌, ◌^◌, ◌++◌, length, IfOk, Some, pos, neg_ℤ, ◌≤ℤ◌, ◌<ℤ◌, vec_len, vec_capacity, Contains};
ghost use Rattle.soda_words.specs.IntType.{cell_sizes};
ghost use Rattle.int_types.specs.Ranges.{InRange};
ghost use Rattle.byteorder.specs.Endian.{little_number};
ghost use Rattle.array_bytes.specs.Sizes.{cell_size};
ghost use Rattle.array_bytes.specs.Values.{raw_value};
ghost use Rattle.array_bytes.specs.Written.{complement, raw_bytes};
ghost use Rattle.array_bytes.specs.Machine.Scans.{IsOfFile, Judges, OrFault};

use crate::CellFault;
use crate::judging::of_type;
use crate::written::append;
use byteorder::{ByteOrder, LittleEndian};
use int_types::{Ty, cell_bytes};

/// The bytes of a raw cell of the type: 1, 2, 4 or 8.
pub fn raw_size(ty: Ty) -> usize
    ensures size { result ≡ cell_size ty }
    ensures one { Contains cell_sizes result }
    ensures some { 0 < result }
    ensures few { result ≤ 8 }
{
    cell_bytes(ty) as usize
}

// The number of the first bytes, least significant first.
fn little(size: usize, bytes: &[u8]) -> u64
    requires one { Contains cell_sizes size }
    requires room { size ≤ length bytes.now }
    ensures { result ≡ little_number size bytes.now }
{
    match size {
        1 => bytes[0] as u64,
        2 => LittleEndian::read_u16(bytes) as u64,
        4 => LittleEndian::read_u32(bytes) as u64,
        _ => LittleEndian::read_u64(bytes),
    }
}

/// The raw cell that the bytes begin with, as the one with this number, or its fault: `CellRange` exactly where it is
/// outside its type's range. There are as many bytes as a cell has.
pub fn raw_cell(ty: Ty, number: u64, bytes: &[u8]) -> Result<i128, CellFault>
    requires room { cell_size ty ≤ length bytes.now }
    ensures range { IfOk result (λ v. InRange ty v) }
    ensures own { OrFault IsOfFile result }
    ensures judged { Judges ty number (Some (raw_value ty bytes.now)) result }
{
    let size = raw_size(ty);
    if ty.signed() {
        of_type(ty, number, LittleEndian::read_int(bytes, size) as i128)
    } else {
        of_type(ty, number, little(size, bytes) as i128)
    }
}

// How many numbers so many bytes have.
fn numbers(size: usize) -> i128
    requires { Contains cell_sizes size }
    ensures value { result ≡ pos (2 ^ (8 * size)) }
    ensures few { 2 ^ (8 * size) ≤ 2 ^ 64 }
{
    match size {
        1 => 0x100,
        2 => 0x1_0000,
        4 => 0x1_0000_0000,
        _ => 0x1_0000_0000_0000_0000,
    }
}

// The two's complement of so many bytes, for a number that it has.
fn complement(size: usize, cell: i128) -> u64
    requires one { Contains cell_sizes size }
    requires from { neg_ℤ (pos (2 ^ (8 * size))) ≤ℤ cell }
    requires below { cell <ℤ pos (2 ^ (8 * size)) }
    ensures value { result ≡ complement size cell }
    ensures few { result < 2 ^ (8 * size) }
{
    let numbers = numbers(size);
    if cell < 0 {
        (cell + numbers) as u64
    } else {
        cell as u64
    }
}

/// Appends the bytes of a raw cell. It is in its type's range, and there is room for it.
pub fn put_raw(out: &mut Vec<u8>, ty: Ty, cell: i128)
    requires range { InRange ty cell }
    requires room { vec_len out.old + cell_size ty ≤ vec_capacity out.old }
    ensures put { out.new.items ≡ out.old.items ++ raw_bytes ty cell }
    ensures len { vec_len out.new ≡ vec_len out.old + cell_size ty }
    ensures capacity { vec_capacity out.old ≤ vec_capacity out.new }
{
    let _bits = ty.bits();
    let size = raw_size(ty);
    let mut bytes = [0u8; 8];
    LittleEndian::write_uint(&mut bytes, complement(size, cell), size);
    append(out, &bytes[..size]);
}
