ghost use Rattle.std.specs.Prelude.{◌≡◌, ℕ, ◌+◌, ◌*◌, ◌%◌, ◌≤◌, ◌<◌, ◌^◌, ◌++◌, ◌∷◌, [], false, length, List, ℤ, All, IfOk, vec_len, vec_capacity, if◌then◌else◌};
ghost use Rattle.int_types.specs.Ranges.{InRange};
ghost use Rattle.soda_io.specs.Cause.{HasCause};
ghost use Rattle.array_bytes.specs.Sizes.{cell_size};
ghost use Rattle.array_bytes.specs.ReadNumber.{block_cells};
ghost use Rattle.array_bytes.specs.declared.form.Form.TheVariants.{Text, Raw};
ghost use Rattle.whole_files.specs.Writing.{WritesWhole};
ghost use Rattle.bursts.specs.Machine.Buffers.{kept, sent};

use crate::Form;
use array_bytes::{LONGEST_CELL, end_text, put_raw, put_text, raw_size};
use int_types::Ty;
use soda_io::{Files, IoErr, NoMemory};
use std::alloc::Global;
use whole_files::write_whole;

// The bytes of a text's buffer, and those at which it has no room for the longest cell.
const BLOCK: usize = 4096;

const NEARLY_FULL: usize = BLOCK - LONGEST_CELL;

/// Writes the cells of an array in order.
///
/// A text is written when its buffer of 4,096 bytes is nearly full, raw cells when a burst word of them is whole, and
/// what is left by `finish`. Nobody else writes by the id or changes the bytes of its name.
#[derive(Drop)]
pub struct CellWriter {
    id: u32,
    form: Form,
    ty: Ty,
    // The cells of a line.
    run: u64,
    // How many cells of the line were put, and whether any cell was.
    column: u64,
    begun: bool,
    // The bytes at which raw cells are written.
    full: usize,
    // What isn't written yet.
    buffer: Vec<u8>,
    ghost some: { 0 < run },
    ghost line: { column < run },
    ghost room: { 4096 ≤ vec_capacity buffer },
    ghost small: { vec_len buffer < 4096 },
    ghost word: { full ≤ 1024 },
    ghost some_word: { 0 < full },
    ghost whole: { full % cell_size ty ≡ 0 },
    ghost raw: { form ≡ Raw → vec_len buffer < full },
}

// Writes a buffer that is full, and keeps nothing of it; it is full at so many bytes.
fn write_full<F: Files>(
    files: &mut F,
    id: u32,
    buffer: &mut Vec<u8>,
    full: usize,
) -> Result<(), IoErr>
    requires given { id < F.given files.old }
    requires created { F.tells → (F.store files.old).opened id ≡ false }

    ensures kept { buffer.new.items ≡ kept full buffer.old.items }
    ensures capacity { vec_capacity buffer.old ≤ vec_capacity buffer.new }
    ensures given { F.given files.new ≡ F.given files.old }
    ensures store { F.tells → WritesWhole (F.given files.old) (F.store files.old) (F.store files.new) id
        (sent full buffer.old.items) result }
    ensures cause { HasCause (F.faults files.old) (F.faults files.new) result }
{
    if buffer.len() < full {
        return Ok(());
    }
    let answer = write_whole(files, id, buffer);
    buffer.clear();
    answer
}

// Appends what ends an array, for which there is room: a line feed where cells of a text were put.
fn put_end(buffer: &mut Vec<u8>, begun: bool)
    requires { vec_len buffer.old < vec_capacity buffer.old }
    ensures put { buffer.new.items ≡ buffer.old.items ++ (if begun then 10 ∷ [] else []) }
    ensures capacity { vec_capacity buffer.old ≤ vec_capacity buffer.new }
{
    if begun {
        end_text(buffer);
    }
}

impl CellWriter {
    ghost use Rattle.bursts.specs.Blocks.{WritesOn};
    ghost use Rattle.bursts.specs.Writers.{Finishes, HasPut, Output, Puts, output};

    /// A writer by an id that `create` gave and nothing was written by. A text has `run` cells a line, at least one.
    ///
    /// `burst` is the width of a burst word in bits: from 8 to 8,192, and a multiple of the bits of a cell's bytes.
    pub fn new(
        alloc: Global,
        form: Form,
        ty: Ty,
        burst: u32,
        run: u64,
        id: u32,
    ) -> Result<CellWriter, NoMemory>
        requires least { 8 ≤ burst }
        requires most { burst ≤ 8192 }
        requires whole { burst % (8 * cell_size ty) ≡ 0 }
        requires run { 1 ≤ run }

        ensures output { IfOk result (λ w. output w
            ≡ record { form = form; ty = ty; run = run; block = block_cells form ty burst; id = id }) }
        // It has put no cells into a file that is empty.
        ensures none { IfOk result (λ w. HasPut w [] []) }
    {
        let size = raw_size(ty);
        let full = burst as usize / (8 * size) * size;
        let buffer = Vec::with_capacity(alloc, BLOCK)?;
        Ok(CellWriter {
            id,
            form,
            ty,
            run,
            column: 0,
            begun: false,
            full,
            buffer,
        })
    }

    // Puts one cell of a text.
    fn put_decimal<F: Files>(&mut self, files: &mut F, cell: i128) -> Result<(), IoErr>
        requires given { (output self.old).id < F.given files.old }
        requires created { F.tells → (F.store files.old).opened (output self.old).id ≡ false }
        requires range { InRange (output self.old).ty cell }
        requires text { (output self.old).form ≡ Text }

        ensures output { output self.new ≡ output self.old }
        ensures put { F.tells → (before : List ℤ) → (bytes : List ℕ)
            → (F.store files.old).bytes ((F.store files.old).name (output self.old).id) ≡ Some bytes
            → HasPut self.old before bytes
            → Puts self.new before (cell ∷ [])
            ((F.store files.new).bytes ((F.store files.new).name (output self.old).id)) result }
        ensures given { F.given files.new ≡ F.given files.old }
        ensures store { F.tells → WritesOn (F.given files.old) (F.store files.old) (F.store files.new)
            (output self.old).id result }
        ensures cause { HasCause (F.faults files.old) (F.faults files.new) result }
    {
        let _bits = self.ty.bits();
        write_full(files, self.id, &mut self.buffer, NEARLY_FULL)?;
        put_text(&mut self.buffer, self.begun, self.column, cell);
        self.begun = true;
        self.column += 1;
        if self.column == self.run {
            self.column = 0;
        }
        Ok(())
    }

    // Puts one raw cell.
    fn put_bytes<F: Files>(&mut self, files: &mut F, cell: i128) -> Result<(), IoErr>
        requires given { (output self.old).id < F.given files.old }
        requires created { F.tells → (F.store files.old).opened (output self.old).id ≡ false }
        requires range { InRange (output self.old).ty cell }
        requires raw { (output self.old).form ≡ Raw }

        ensures output { output self.new ≡ output self.old }
        ensures put { F.tells → (before : List ℤ) → (bytes : List ℕ)
            → (F.store files.old).bytes ((F.store files.old).name (output self.old).id) ≡ Some bytes
            → HasPut self.old before bytes
            → Puts self.new before (cell ∷ [])
            ((F.store files.new).bytes ((F.store files.new).name (output self.old).id)) result }
        ensures given { F.given files.new ≡ F.given files.old }
        ensures store { F.tells → WritesOn (F.given files.old) (F.store files.old) (F.store files.new)
            (output self.old).id result }
        ensures cause { HasCause (F.faults files.old) (F.faults files.new) result }
    {
        put_raw(&mut self.buffer, self.ty, cell);
        write_full(files, self.id, &mut self.buffer, self.full)
    }

    // Puts one cell.
    fn put_cell<F: Files>(&mut self, files: &mut F, cell: i128) -> Result<(), IoErr>
        requires given { (output self.old).id < F.given files.old }
        requires created { F.tells → (F.store files.old).opened (output self.old).id ≡ false }
        requires range { InRange (output self.old).ty cell }

        ensures output { output self.new ≡ output self.old }
        ensures put { F.tells → (before : List ℤ) → (bytes : List ℕ)
            → (F.store files.old).bytes ((F.store files.old).name (output self.old).id) ≡ Some bytes
            → HasPut self.old before bytes
            → Puts self.new before (cell ∷ [])
            ((F.store files.new).bytes ((F.store files.new).name (output self.old).id)) result }
        ensures given { F.given files.new ≡ F.given files.old }
        ensures store { F.tells → WritesOn (F.given files.old) (F.store files.old) (F.store files.new)
            (output self.old).id result }
        ensures cause { HasCause (F.faults files.old) (F.faults files.new) result }
    {
        match self.form {
            Form::Text => self.put_decimal(files, cell),
            Form::Raw => self.put_bytes(files, cell),
        }
    }

    /// Puts the next cells. They are in the type's range, and no earlier call of `put` or `finish` answered an error,
    /// and `finish` wasn't called.
    ///
    /// What is written by then is a prefix of the bytes of every list that begins with the cells put so far, and fewer
    /// of them aren't in the file yet than a block has.
    pub fn put<F: Files>(&mut self, files: &mut F, cells: &[i128]) -> Result<(), IoErr>
        requires given { (output self.old).id < F.given files.old }
        requires created { F.tells → (F.store files.old).opened (output self.old).id ≡ false }
        requires range { All (λ v. InRange (output self.old).ty v) cells.now }

        ensures output { output self.new ≡ output self.old }
        // The cells that were put before are put, and these behind them.
        ensures put { F.tells → (before : List ℤ) → (bytes : List ℕ)
            → (F.store files.old).bytes ((F.store files.old).name (output self.old).id) ≡ Some bytes
            → HasPut self.old before bytes
            → Puts self.new before cells.now
            ((F.store files.new).bytes ((F.store files.new).name (output self.old).id)) result }
        ensures given { F.given files.new ≡ F.given files.old }
        ensures store { F.tells → WritesOn (F.given files.old) (F.store files.old) (F.store files.new)
            (output self.old).id result }
        ensures cause { HasCause (F.faults files.old) (F.faults files.new) result }
    {
        for cell in cells {
            self.put_cell(files, *cell)?;
        }
        Ok(())
    }

    /// Writes what isn't written yet, under the conditions of `put`.
    ///
    /// At Ok the file holds the bytes of the cells put, and after an error a prefix of them.
    pub fn finish<F: Files>(&mut self, files: &mut F) -> Result<(), IoErr>
        requires given { (output self.old).id < F.given files.old }
        requires created { F.tells → (F.store files.old).opened (output self.old).id ≡ false }

        ensures output { output self.new ≡ output self.old }
        ensures finished { F.tells → (before : List ℤ) → (bytes : List ℕ)
            → (F.store files.old).bytes ((F.store files.old).name (output self.old).id) ≡ Some bytes
            → HasPut self.old before bytes
            → Finishes (output self.old) before
            ((F.store files.new).bytes ((F.store files.new).name (output self.old).id)) result }
        ensures given { F.given files.new ≡ F.given files.old }
        ensures store { F.tells → WritesOn (F.given files.old) (F.store files.old) (F.store files.new)
            (output self.old).id result }
        ensures cause { HasCause (F.faults files.old) (F.faults files.new) result }
    {
        put_end(&mut self.buffer, self.begun);
        write_full(files, self.id, &mut self.buffer, 0)
    }
}
