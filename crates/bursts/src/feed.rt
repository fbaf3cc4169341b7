// What was read of a file and isn't used yet.
ghost use Rattle.std.specs.Prelude.{◌≡◌, ◌≢◌, ℕ, ◌+◌, ◌-◌, ◌≤◌, ◌<◌, true, false, length, take, drop, vec_len, IfOk, OnOk, OnErr, IsErrOf, is_ok};
ghost use Rattle.soda_io.specs.Store.{left, content};

use array_bytes::CellFault;
use soda_io::{Files, IoErr, NoMemory};
use std::alloc::Global;

#[derive(Drop)]
pub(crate) struct Feed {
    pub(crate) buffer: Vec<u8>,
    // The part of the buffer that isn't used yet.
    pub(crate) start: usize,
    pub(crate) filled: usize,
    // Whether the end of the file was met.
    pub(crate) ended: bool,
    ghost within: { start ≤ filled },
    ghost room: { filled ≤ vec_len buffer },
}

impl Feed {
    ghost use Rattle.bursts.specs.Machine.Feeds.{unread, Fills, FillsFile};
    ghost use Rattle.bursts.specs.Blocks.{ReadCause};

    // Nothing read, and a buffer of so many bytes.
    pub(crate) fn new(alloc: Global, size: usize) -> Result<Feed, NoMemory>
        ensures size { IfOk result (λ f. vec_len f.buffer ≡ size) }
        ensures start { IfOk result (λ f. f.start ≡ 0) }
        ensures filled { IfOk result (λ f. f.filled ≡ 0) }
        ensures ended { IfOk result (λ f. f.ended ≡ false) }
    {
        let mut buffer = Vec::new(alloc);
        buffer.resize(size, 0)?;
        Ok(Feed {
            buffer,
            start: 0,
            filled: 0,
            ended: false,
        })
    }

    // The bytes that aren't used yet.
    pub(crate) fn unread(&self) -> &[u8]
        ensures value { result.now ≡ unread self.now }
        ensures count { length result.now ≡ self.now.filled - self.now.start }
    {
        &self.buffer[self.start..self.filled]
    }

    // How many they are.
    pub(crate) fn count(&self) -> usize
        ensures value { result ≡ self.now.filled - self.now.start }
        ensures room { result ≤ vec_len self.now.buffer }
    {
        self.filled - self.start
    }

    // Uses so many of the bytes.
    pub(crate) fn skip(&mut self, count: usize)
        requires { count ≤ self.old.filled - self.old.start }
        ensures start { self.new.start ≡ self.old.start + count }
        ensures filled { self.new.filled ≡ self.old.filled }
        ensures buffer { self.new.buffer ≡ self.old.buffer }
        ensures ended { self.new.ended ≡ self.old.ended }
    {
        self.start += count;
    }

    // Begins again at the front of the buffer, where all bytes are used.
    pub(crate) fn restart(&mut self)
        ensures start { self.new.start ≡ 0 }
        ensures filled { self.new.filled ≡ 0 }
        ensures buffer { self.new.buffer ≡ self.old.buffer }
        ensures ended { self.new.ended ≡ self.old.ended }
    {
        self.start = 0;
        self.filled = 0;
    }

    // Reads at most `most` bytes more, for which there is room, and says whether there were any. It asks for none once
    // the end was met.
    pub(crate) fn fill<F: Files>(
        &mut self,
        files: &mut F,
        id: u32,
        most: usize,
    ) -> Result<bool, CellFault>
        requires given { id < F.given files.old }
        requires opened { F.tells → (F.store files.old).opened id ≡ true }
        requires some { 0 < most }
        requires room { self.old.filled + most ≤ vec_len self.old.buffer }

        ensures given { F.given files.new ≡ F.given files.old }
        ensures still { F.tells → (F.store files.new).opened id ≡ true }
        ensures start { self.new.start ≡ self.old.start }
        ensures size { vec_len self.new.buffer ≡ vec_len self.old.buffer }
        ensures few { self.new.filled ≤ self.old.filled + most }
        ensures fills { Fills self.old self.new result }
        ensures file { F.tells → FillsFile (F.given files.old) (F.store files.old) (F.store files.new) id most
            self.old self.new result }
        ensures cause { ReadCause None (F.faults files.old) (F.faults files.new) result }
    {
        if self.ended {
            return Ok(false);
        }
        let from = self.filled;
        match files.read(id, &mut self.buffer[from..from + most]) {
            Ok(0) => {
                self.ended = true;
                Ok(false)
            }
            Ok(count) => {
                self.filled = from + count;
                Ok(true)
            }
            Err(IoErr::Failed) => Err(CellFault::Failed),
            Err(IoErr::Memory) => Err(CellFault::Memory),
        }
    }
}
