// Files in memory, with a journal of the calls.
ghost use Rattle.std.specs.Prelude.{◌≡◌, ℕ, ◌<◌, ◌≤◌, ◌++◌, [], ◌∷◌, List, None, length, take, drop, ◌+◌, ◌^◌, min, string_bytes, vec_len, vec_capacity, OnOk, IfOk, OnErr, option_copied, Contains, IsErrOf, IsTrue, ◌↔◌, ⊤, true, false};
ghost use Rattle.soda_io.specs.Cause.{raised, HasCause, IsCountOfFailed};
ghost use Rattle.soda_io.specs.Machine.Given.{AllHeld};
ghost use Rattle.soda_io.specs.Store.{Puts, KeepsIds, KeepsBytes, KeepsPlaces, Opens, Creates, Reads, Writes, Gives, NamesGiven, named};

use crate::fault::raise;
use crate::limits::MOST_IDS;
use crate::mem_id::MemId;
use crate::{FileCall, Files, IoErr, Name, NoMemory, held};
use std::alloc::Global;
use std::collections::BTreeMap;

/// Files in memory, with a journal of the calls. The calls whose numbers are listed fail.
///
/// The number of a call is how many entries the journal has as it begins.
#[derive(Drop)]
pub struct MemFiles {
    alloc: Global,
    files: BTreeMap<String, Vec<u8>>,
    ids: Vec<MemId>,
    calls: Vec<FileCall>,
    fails: Vec<u64>,
    faults: u64,
    ghost held: { AllHeld ids.items files },
    ghost known: { NamesGiven (length ids.items) calls.items },
    ghost counted: { faults < 2 ^ 64 },
}

// Puts the front of what `place` leaves into the buffer.
fn copy_from(bytes: &[u8], place: usize, buf: &mut [u8]) -> usize
    ensures count { result ≤ length buf.new }
    ensures got { drop place bytes.now ≡ take result buf.new ++ drop (place + result) bytes.now }
    ensures fits { place + result < 2 ^ 64 }
    ensures end { result ≡ 0 → 0 < length buf.old → drop place bytes.now ≡ [] }
{
    if place >= bytes.len() {
        return 0;
    }
    let rest = &bytes[place..];
    let count = rest.len().min(buf.len());
    buf[..count].copy_from_slice(&rest[..count]);
    count
}

fn name_of(alloc: Global, name: &str) -> Result<Name, NoMemory>
    ensures { IfOk result (λ n. n ≡ name.now) }
{
    match name.as_bytes().to_vec(alloc) {
        Ok(text) => Ok(Name::new(text)),
        Err(_) => Err(NoMemory),
    }
}

fn id_of(alloc: Global, name: &str, opened: bool) -> Result<MemId, NoMemory>
    ensures { IfOk result (λ i. (string_bytes i.name ≡ name.now) × (i.opened ≡ opened) × (i.place ≡ 0)) }
{
    match String::from_str(alloc, name) {
        Ok(name) => Ok(MemId {
            name,
            opened,
            place: 0,
        }),
        Err(_) => Err(NoMemory),
    }
}

// Whether the call with this number is one of those that fail.
fn is_listed(fails: &[u64], number: usize) -> bool
    ensures { IsTrue result ↔ Contains fails.now number }
{
    fails.contains(&(number as u64))
}

// Adds an id, for which there is room.
fn add_id(ids: &mut Vec<MemId>, fresh: MemId)
    requires { vec_len ids.old < vec_capacity ids.old }
    ensures { ids.new.items ≡ ids.old.items ++ fresh ∷ [] }
{
    match ids.push(fresh) {
        Ok(()) => {}
        Err(_) => unreachable!(),
    }
}

// Adds an entry, for which there is room.
fn log(calls: &mut Vec<FileCall>, entry: FileCall)
    requires { vec_len calls.old < vec_capacity calls.old }
    ensures { calls.new.items ≡ calls.old.items ++ entry ∷ [] }
{
    match calls.push(entry) {
        Ok(()) => {}
        Err(_) => unreachable!(),
    }
}

impl MemFiles {
    ghost use Rattle.soda_io.specs.Mem.{mem_store, mem_given, mem_fails, mem_faults};

    /// Files with no names, no ids given, an empty journal and a count of 0, that fail at the calls with these numbers.
    pub fn new(alloc: Global, fails: &[u64]) -> Result<MemFiles, NoMemory>
        ensures names { IfOk result (λ m. (n : List ℕ) → (mem_store m).bytes n ≡ None) }
        ensures calls { IfOk result (λ m. (mem_store m).calls ≡ []) }
        ensures given { IfOk result (λ m. mem_given m ≡ 0) }
        ensures fails { IfOk result (λ m. mem_fails m ≡ fails.now) }
        ensures faults { IfOk result (λ m. mem_faults m ≡ 0) }
    {
        let fails = fails.to_vec(alloc)?;
        Ok(MemFiles {
            alloc,
            files: BTreeMap::new(alloc),
            ids: Vec::new(alloc),
            calls: Vec::new(alloc),
            fails,
            faults: 0,
        })
    }

    /// Makes these the bytes of the name, whether it was held or not. It is no call of the journal.
    pub fn add(&mut self, name: &str, bytes: &[u8]) -> Result<(), NoMemory>
        ensures ok { OnOk result (Puts name.now bytes.now (mem_store self.old).bytes (mem_store self.new).bytes) }
        ensures err { OnErr result (KeepsBytes (mem_store self.old) (mem_store self.new)) }
        ensures ids { KeepsIds (mem_given self.old) (mem_store self.old) (mem_store self.new) }
        ensures places { KeepsPlaces (mem_given self.old) (mem_store self.old) (mem_store self.new) }
        ensures calls { (mem_store self.new).calls ≡ (mem_store self.old).calls }
        ensures given { mem_given self.new ≡ mem_given self.old }
        ensures fails { mem_fails self.new ≡ mem_fails self.old }
        ensures faults { mem_faults self.new ≡ mem_faults self.old }
    {
        let copy = bytes.to_vec(self.alloc)?;
        held::put(self.alloc, &mut self.files, name, copy)
    }

    /// The bytes of a name; None exactly where the name isn't held.
    pub fn bytes_of(&self, name: &str) -> Option<&[u8]>
        ensures { option_copied result ≡ (mem_store self.now).bytes name.now }
    {
        held::find(&self.files, name)
    }

    /// The entries of the calls that answered `Ok` or `Failed`, in order.
    pub fn journal(&self) -> &[FileCall]
        ensures { result.now ≡ (mem_store self.now).calls }
    {
        &self.calls
    }
}

impl MemFiles {
    // Makes room for one more id and one more entry. Nothing else changes.
    fn make_room(&mut self) -> Result<(), NoMemory>
        ensures ids { self.new.ids.items ≡ self.old.ids.items }
        ensures calls { self.new.calls.items ≡ self.old.calls.items }
        ensures files { self.new.files ≡ self.old.files }
        ensures fails { self.new.fails ≡ self.old.fails }
        ensures faults { self.new.faults ≡ self.old.faults }
        ensures more_ids { OnOk result (vec_len self.new.ids < vec_capacity self.new.ids) }
        ensures more_calls { OnOk result (vec_len self.new.calls < vec_capacity self.new.calls) }
    {
        if self.ids.reserve(1).is_err() {
            return Err(NoMemory);
        }
        self.calls.reserve(1)
    }

    // Adds the entry of a call that fails, and counts the fault. There is room for the entry.
    fn refuse(&mut self, entry: FileCall)
        requires more_calls { vec_len self.old.calls < vec_capacity self.old.calls }
        requires given { named entry ≤ length self.old.ids.items }
        ensures ids { self.new.ids ≡ self.old.ids }
        ensures calls { self.new.calls.items ≡ self.old.calls.items ++ entry ∷ [] }
        ensures files { self.new.files ≡ self.old.files }
        ensures fails { self.new.fails ≡ self.old.fails }
        ensures faults { self.new.faults ≡ raised self.old.faults }
    {
        raise(&mut self.faults);
        log(&mut self.calls, entry);
    }
}

impl Files for MemFiles {
    ghost use Rattle.soda_io.specs.Mem.{mem_store, mem_given, mem_fails, mem_faults, OpenFails, CreateFails, NextFails};

    ghost tells = { ⊤ };

    ghost store = { mem_store };

    ghost given = { mem_given };

    ghost faults = { mem_faults };

    /// Opens a name, or fails exactly where its number is listed, the name isn't held or no id is left.
    fn open(&mut self, name: &str) -> Result<u32, IoErr>
        ensures id { Gives (mem_given self.old) (mem_given self.new) result }
        ensures store { ⊤ → Opens (mem_given self.old) (mem_store self.old) (mem_store self.new) name.now result }
        ensures cause { HasCause (mem_faults self.old) (mem_faults self.new) result }

        // It fails exactly where its number is listed, or the reason stands here.
        ensures failed { IsErrOf result IoErr.Failed → OpenFails self.old name.now }
        ensures ok { OnOk result (¬ OpenFails self.old name.now) }
        ensures faults { IsCountOfFailed (mem_faults self.old) (mem_faults self.new) result }
        ensures fails { mem_fails self.new ≡ mem_fails self.old }
    {
        if self.make_room().is_err() {
            return Err(IoErr::Memory);
        }
        let Ok(entry) = name_of(self.alloc, name) else {
            return Err(IoErr::Memory);
        };
        let id = self.ids.len();
        if id >= MOST_IDS
            || is_listed(&self.fails, self.calls.len())
            || !held::is_held(&self.files, name)
        {
            self.refuse(FileCall::Open {
                name: entry,
                id: None,
            });
            return Err(IoErr::Failed);
        }
        let Ok(fresh) = id_of(self.alloc, name, true) else {
            drop(entry);
            return Err(IoErr::Memory);
        };
        add_id(&mut self.ids, fresh);
        let id = id as u32;
        log(
            &mut self.calls,
            FileCall::Open {
                name: entry,
                id: Some(id),
            },
        );
        Ok(id)
    }

    /// Creates a name, or fails exactly where its number is listed or no id is left.
    fn create(&mut self, name: &str) -> Result<u32, IoErr>
        ensures id { Gives (mem_given self.old) (mem_given self.new) result }
        ensures store { ⊤ → Creates (mem_given self.old) (mem_store self.old) (mem_store self.new) name.now result }
        ensures cause { HasCause (mem_faults self.old) (mem_faults self.new) result }

        // It fails exactly where its number is listed, or the reason stands here.
        ensures failed { IsErrOf result IoErr.Failed → CreateFails self.old }
        ensures ok { OnOk result (¬ CreateFails self.old) }
        ensures faults { IsCountOfFailed (mem_faults self.old) (mem_faults self.new) result }
        ensures fails { mem_fails self.new ≡ mem_fails self.old }
    {
        if self.make_room().is_err() {
            return Err(IoErr::Memory);
        }
        let Ok(entry) = name_of(self.alloc, name) else {
            return Err(IoErr::Memory);
        };
        let id = self.ids.len();
        if id >= MOST_IDS || is_listed(&self.fails, self.calls.len()) {
            self.refuse(FileCall::Create {
                name: entry,
                id: None,
            });
            return Err(IoErr::Failed);
        }
        let Ok(fresh) = id_of(self.alloc, name, false) else {
            drop(entry);
            return Err(IoErr::Memory);
        };
        let empty = Vec::new(self.alloc);
        let Ok(()) = held::put(self.alloc, &mut self.files, name, empty) else {
            drop(entry);
            drop(fresh);
            return Err(IoErr::Memory);
        };
        add_id(&mut self.ids, fresh);
        let id = id as u32;
        log(
            &mut self.calls,
            FileCall::Create {
                name: entry,
                id: Some(id),
            },
        );
        Ok(id)
    }

    /// Reads the next bytes, or fails exactly where its number is listed.
    fn read(&mut self, id: u32, buf: &mut [u8]) -> Result<usize, IoErr>
        requires given { id < mem_given self.old }
        requires opened { ⊤ → (mem_store self.old).opened id ≡ true }
        requires room { 0 < length buf.old }
        ensures count { IfOk result (λ n. n ≤ length buf.new) }
        ensures ids { mem_given self.new ≡ mem_given self.old }
        ensures store { ⊤ →
            Reads (mem_given self.old) (mem_store self.old) (mem_store self.new) id (length buf.old) buf.new result }
        ensures cause { HasCause (mem_faults self.old) (mem_faults self.new) result }

        // It fails exactly where its number is listed, or the reason stands here.
        ensures failed { IsErrOf result IoErr.Failed → NextFails self.old }
        ensures ok { OnOk result (¬ NextFails self.old) }
        ensures faults { IsCountOfFailed (mem_faults self.old) (mem_faults self.new) result }
        ensures fails { mem_fails self.new ≡ mem_fails self.old }
    {
        if self.make_room().is_err() {
            return Err(IoErr::Memory);
        }
        let asked = buf.len() as u64;
        if is_listed(&self.fails, self.calls.len()) {
            self.refuse(FileCall::Read {
                id,
                asked,
                got: None,
            });
            return Err(IoErr::Failed);
        }
        let own = &self.ids[id as usize];
        let Some(bytes) = held::find(&self.files, own.name.as_str()) else {
            unreachable!()
        };
        let count = copy_from(bytes, own.place, buf);
        self.ids[id as usize].place += count;
        let got = Some(count as u64);
        log(&mut self.calls, FileCall::Read { id, asked, got });
        Ok(count)
    }

    /// Writes all the bytes, or fails exactly where its number is listed.
    fn write(&mut self, id: u32, bytes: &[u8]) -> Result<usize, IoErr>
        requires given { id < mem_given self.old }
        requires created { ⊤ → (mem_store self.old).opened id ≡ false }
        requires some { 0 < length bytes.now }
        ensures count { IfOk result (λ n. (0 < n) × (n ≤ length bytes.now)) }
        ensures ids { mem_given self.new ≡ mem_given self.old }
        ensures store { ⊤ →
            Writes (mem_given self.old) (mem_store self.old) (mem_store self.new) id bytes.now (length bytes.now)
            result }
        ensures cause { HasCause (mem_faults self.old) (mem_faults self.new) result }

        // It fails exactly where its number is listed, or the reason stands here.
        ensures failed { IsErrOf result IoErr.Failed → NextFails self.old }
        ensures ok { OnOk result (¬ NextFails self.old) }
        ensures all { IfOk result (λ n. n ≡ length bytes.now) }
        ensures faults { IsCountOfFailed (mem_faults self.old) (mem_faults self.new) result }
        ensures fails { mem_fails self.new ≡ mem_fails self.old }
    {
        if self.make_room().is_err() {
            return Err(IoErr::Memory);
        }
        let given = bytes.len() as u64;
        if is_listed(&self.fails, self.calls.len()) {
            self.refuse(FileCall::Write {
                id,
                given,
                taken: None,
            });
            return Err(IoErr::Failed);
        }
        let name = self.ids[id as usize].name.as_str();
        let Ok(()) = held::append(&mut self.files, name, bytes) else {
            return Err(IoErr::Memory);
        };
        let taken = Some(given);
        log(&mut self.calls, FileCall::Write { id, given, taken });
        Ok(bytes.len())
    }

    ghost known = { λ m told. m.known };

    ghost below = { λ m. m.counted };
}
