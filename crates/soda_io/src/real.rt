// The real files and streams. They keep a count of what failed.
ghost use Rattle.std.specs.Prelude.{◌≡◌, ◌<◌, ◌≤◌, ◌+◌, ◌^◌, [], length, vec_len, vec_capacity, unwrap_or, IfOk, OnOk, IsErrOf};
ghost use Rattle.soda_io.specs.Bytes.{Takes, Tells};
ghost use Rattle.soda_io.specs.Cause.{HasCause, IsCountOfErrors};
ghost use Rattle.soda_io.specs.Limits.{most_ids};
ghost use Rattle.soda_io.specs.Store.{nothing, Gives, Opens, Creates, Reads, Writes};

use crate::fault::raise;
use crate::limits::MOST_IDS;
use crate::{Files, IoErr, NoMemory, Sink};
use std::alloc::Global;
use std::io::{Read, Write};
use std::rt::Runtime;
use std::{fs, io, rt};

/// A real stream as a sink. It tells what it took exactly where its writer tells what it holds, as a vector does.
///
/// Standard output, standard error and a file tell nothing.
pub struct StdSink<W: Write + Drop> {
    writer: W,
    faults: u64,
    ghost counted: { faults < 2 ^ 64 },
}

impl<W: Write + Drop> Drop for StdSink<W> {
    fn drop(self) {
        let StdSink {
            writer: _,
            faults: _,
        } = self;
    }
}

impl<W: Write + Drop> StdSink<W> {
    /// The sink that hands its bytes to this writer, with a count of 0.
    pub fn new(writer: W) -> StdSink<W>
        ensures faults { result.faults ≡ 0 }
        ensures writer { result.writer ≡ writer }
    {
        StdSink { writer, faults: 0 }
    }
}

impl<W: Write + Drop> Sink for StdSink<W> {
    ghost tells = { Tells W.contents };

    ghost taken = { λ s. unwrap_or (W.contents s.writer) [] };

    ghost faults = { λ s. s.faults };

    /// Writes once. Each error raises the count, and so does a writer that takes nothing.
    fn write(&mut self, bytes: &[u8]) -> Result<usize, IoErr>
        requires { 0 < length bytes.now }
        ensures count { IfOk result (λ n. (0 < n) × (n ≤ length bytes.now)) }
        ensures taken { Tells W.contents →
            Takes (unwrap_or (W.contents self.old.writer) []) (unwrap_or (W.contents self.new.writer) []) bytes.now
            result }
        ensures cause { HasCause self.old.faults self.new.faults result }
        ensures spared { IsErrOf result IoErr.Memory → self.new.faults ≡ self.old.faults }
        ensures faults { IsCountOfErrors self.old.faults self.new.faults result }
    {
        match self.writer.write(bytes).ok() {
            Some(taken) if taken > 0 => Ok(taken),
            _ => {
                raise(&mut self.faults);
                Err(IoErr::Failed)
            }
        }
    }

    ghost below = { λ s. s.counted };
}

/// The real files of a runtime. They tell no content.
#[derive(Drop)]
pub struct RealFiles<'a, R: Runtime> {
    rt: &'a R,
    files: Vec<R::File>,
    faults: u64,
    ghost counted: { faults < 2 ^ 64 },
}

impl<'a, R: Runtime> RealFiles<'a, R> {
    /// The files of this runtime, with no ids given and a count of 0.
    pub fn new(rt: &'a R, alloc: Global) -> Result<RealFiles<'a, R>, NoMemory>
        ensures given { IfOk result (λ f. vec_len f.files ≡ 0) }
        ensures faults { IfOk result (λ f. f.faults ≡ 0) }
    {
        Ok(RealFiles {
            rt,
            files: Vec::new(alloc),
            faults: 0,
        })
    }

    // Makes room for one more file, or raises the count.
    fn make_room(&mut self) -> Result<(), IoErr>
        ensures given { vec_len self.new.files ≡ vec_len self.old.files }
        ensures few { OnOk result (vec_len self.new.files < most_ids) }
        ensures more { OnOk result (vec_len self.new.files < vec_capacity self.new.files) }
        ensures cause { HasCause self.old.faults self.new.faults result }
        ensures faults { IsCountOfErrors self.old.faults self.new.faults result }
    {
        if self.files.len() >= MOST_IDS {
            raise(&mut self.faults);
            return Err(IoErr::Failed);
        }
        if self.files.reserve(1).is_err() {
            raise(&mut self.faults);
            return Err(IoErr::Memory);
        }
        Ok(())
    }

    // Keeps a file that was made, for which there is room, or raises the count.
    fn keep(&mut self, made: Option<R::File>) -> Result<u32, IoErr>
        requires few { vec_len self.old.files < most_ids }
        requires more { vec_len self.old.files < vec_capacity self.old.files }
        ensures id { Gives (vec_len self.old.files) (vec_len self.new.files) result }
        ensures cause { HasCause self.old.faults self.new.faults result }
        ensures faults { IsCountOfErrors self.old.faults self.new.faults result }
    {
        let id = self.files.len() as u32;
        let Some(file) = made else {
            raise(&mut self.faults);
            return Err(IoErr::Failed);
        };
        match self.files.push(file) {
            Ok(()) => Ok(id),
            Err(_) => unreachable!(),
        }
    }
}

impl<'a, R: Runtime> Files for RealFiles<'a, R> {
    ghost tells = { ⊥ };

    ghost store = { λ s. nothing };

    ghost given = { λ s. vec_len s.files };

    ghost faults = { λ s. s.faults };

    /// Opens once. Each error raises the count.
    fn open(&mut self, name: &str) -> Result<u32, IoErr>
        ensures id { Gives (vec_len self.old.files) (vec_len self.new.files) result }
        ensures store { ⊥ → Opens (vec_len self.old.files) nothing nothing name.now result }
        ensures cause { HasCause self.old.faults self.new.faults result }
        ensures faults { IsCountOfErrors self.old.faults self.new.faults result }
    {
        self.make_room()?;
        let made = fs::open(self.rt, name).ok();
        self.keep(made)
    }

    /// Creates once. Each error raises the count.
    fn create(&mut self, name: &str) -> Result<u32, IoErr>
        ensures id { Gives (vec_len self.old.files) (vec_len self.new.files) result }
        ensures store { ⊥ → Creates (vec_len self.old.files) nothing nothing name.now result }
        ensures cause { HasCause self.old.faults self.new.faults result }
        ensures faults { IsCountOfErrors self.old.faults self.new.faults result }
    {
        self.make_room()?;
        let made = fs::create(self.rt, name).ok();
        self.keep(made)
    }

    /// Reads once. Each error raises the count.
    fn read(&mut self, id: u32, buf: &mut [u8]) -> Result<usize, IoErr>
        requires given { id < vec_len self.old.files }
        requires room { 0 < length buf.old }
        ensures count { IfOk result (λ n. n ≤ length buf.new) }
        ensures ids { vec_len self.new.files ≡ vec_len self.old.files }
        ensures store { ⊥ → Reads (vec_len self.old.files) nothing nothing id (length buf.old) buf.new result }
        ensures cause { HasCause self.old.faults self.new.faults result }
        ensures faults { IsCountOfErrors self.old.faults self.new.faults result }
    {
        match self.files[id as usize].read(buf).ok() {
            Some(count) => Ok(count),
            None => {
                raise(&mut self.faults);
                Err(IoErr::Failed)
            }
        }
    }

    /// Writes once. Each error raises the count, and so does a file that takes nothing.
    fn write(&mut self, id: u32, bytes: &[u8]) -> Result<usize, IoErr>
        requires given { id < vec_len self.old.files }
        requires some { 0 < length bytes.now }
        ensures count { IfOk result (λ n. (0 < n) × (n ≤ length bytes.now)) }
        ensures ids { vec_len self.new.files ≡ vec_len self.old.files }
        ensures store { ⊥ → Writes (vec_len self.old.files) nothing nothing id bytes.now (length bytes.now) result }
        ensures cause { HasCause self.old.faults self.new.faults result }
        ensures faults { IsCountOfErrors self.old.faults self.new.faults result }
    {
        match self.files[id as usize].write(bytes).ok() {
            Some(count) if count > 0 => Ok(count),
            _ => {
                raise(&mut self.faults);
                Err(IoErr::Failed)
            }
        }
    }

    ghost known = { λ s told. absurd told };

    ghost below = { λ s. s.counted };
}
