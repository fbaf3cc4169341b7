ghost use Rattle.std.specs.Prelude.{◌≡◌, ℕ, ◌+◌, ◌<◌, ◌≤◌, ◌^◌, [], List, length, IfOk, OnOk, IsErrOf, ⊤};
ghost use Rattle.soda_io.specs.Bytes.{Takes, answered};
ghost use Rattle.soda_io.specs.Cause.{HasCause, IsCountOfFailed};

use crate::fault::raise;
use crate::{IoErr, NoMemory, Sink};
use std::alloc::Global;

/// A sink in memory. The writes whose numbers are listed fail.
///
/// The number of a write is how many writes answered `Ok` or `Failed` before it.
#[derive(Drop)]
pub struct MemSink {
    taken: Vec<u8>,
    fails: Vec<u64>,
    calls: u64,
    faults: u64,
    ghost counted: { faults < 2 ^ 64 },
}

impl MemSink {
    ghost use Rattle.soda_io.specs.MemSinks.{sink_taken, sink_calls, sink_fails, sink_faults};

    /// A sink that has taken nothing, and fails at the writes with these numbers.
    pub fn new(alloc: Global, fails: &[u64]) -> Result<MemSink, NoMemory>
        ensures taken { IfOk result (λ s. sink_taken s ≡ []) }
        ensures fails { IfOk result (λ s. sink_fails s ≡ fails.now) }
        ensures calls { IfOk result (λ s. sink_calls s ≡ 0) }
        ensures faults { IfOk result (λ s. sink_faults s ≡ 0) }
    {
        let fails = fails.to_vec(alloc)?;
        Ok(MemSink {
            taken: Vec::new(alloc),
            fails,
            calls: 0,
            faults: 0,
        })
    }

    /// The bytes taken so far.
    pub fn bytes(&self) -> &[u8]
        ensures { result.now ≡ sink_taken self.now }
    {
        &self.taken
    }
}

impl Sink for MemSink {
    ghost use Rattle.soda_io.specs.MemSinks.{sink_taken, sink_calls, sink_fails, sink_faults, NextWriteFails};

    ghost tells = { ⊤ };

    ghost taken = { sink_taken };

    ghost faults = { sink_faults };

    /// Takes all the bytes, or fails exactly where its number is listed.
    fn write(&mut self, bytes: &[u8]) -> Result<usize, IoErr>
        requires { 0 < length bytes.now }
        ensures count { IfOk result (λ n. (0 < n) × (n ≤ length bytes.now)) }
        ensures taken { ⊤ → Takes (sink_taken self.old) (sink_taken self.new) bytes.now result }
        ensures cause { HasCause (sink_faults self.old) (sink_faults self.new) result }
        ensures spared { IsErrOf result IoErr.Memory → sink_faults self.new ≡ sink_faults self.old }

        // It fails exactly where its number is listed.
        ensures failed { IsErrOf result IoErr.Failed → NextWriteFails self.old }
        ensures ok { OnOk result (¬ NextWriteFails self.old) }
        ensures all { IfOk result (λ n. n ≡ length bytes.now) }
        ensures calls { sink_calls self.new ≡ sink_calls self.old + answered result }
        ensures faults { IsCountOfFailed (sink_faults self.old) (sink_faults self.new) result }
        ensures fails { sink_fails self.new ≡ sink_fails self.old }
    {
        if self.calls == u64::MAX {
            return Err(IoErr::Memory);
        }
        if self.fails.contains(&self.calls) {
            self.calls += 1;
            raise(&mut self.faults);
            return Err(IoErr::Failed);
        }
        if self.taken.extend_from_slice(bytes).is_err() {
            return Err(IoErr::Memory);
        }
        self.calls += 1;
        Ok(bytes.len())
    }

    ghost below = { λ s. s.counted };
}
