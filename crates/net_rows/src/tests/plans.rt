//! Programs from texts, and their networks under the delays of their plans.

ghost use Rattle.std.specs.Prelude.{◌≡◌, IfOk};
ghost use Rattle.delay_net.specs.Windows.{HasShortDelays, IsAssignment, MeetsWindows};
ghost use Rattle.soda_ir.specs.Program.{plain};
ghost use Rattle.time_stages.specs.Staged.{staged, staged_reads, staged_widths};

use flow_solve::solve;
use net_build::{BuildRefusal, build};
use net_ir::Network;
use soda_ir::Program;
use soda_parse::{ParseFail, parse};
use soda_words::MOST_TEXT;
use std::alloc::{AllocError, Global};
use time_stages::{Staged, net_of, stage};

/// A mean of three cells.
pub(crate) const AVG: &[u8] = b"kernel: avg\nburst width: 8\nunroll factor: 1\ninput uint8: a(*)\n\
output uint8: o(0) = (a(-1) + a(0) + a(1)) / 3\n";

/// The same, two cells at a time.
pub(crate) const AVG_BY_TWO: &[u8] =
    b"kernel: avg\nburst width: 8\nunroll factor: 2\ninput uint8: a(*)\n\
output uint8: o(0) = (a(-1) + a(0) + a(1)) / 3\n";

/// A mean of three lines, and of three cells of a line.
pub(crate) const BLUR: &[u8] = b"kernel: blur\nburst width: 512\nunroll factor: 16\n\
input dram 0 uint16: input(2000, *)\n\
local uint16: blur_x(0, 0) = (input(0, 0) + input(0, 1) + input(0, 2)) / 3\n\
output dram 1 uint16: blur_y(0, 0) = (blur_x(0, 0) + blur_x(1, 0) + blur_x(2, 0)) / 3\n";

/// The program of a text, if it is accepted.
pub(crate) fn program_of(alloc: Global, text: &[u8]) -> Result<Option<Program>, AllocError> {
    match parse(alloc, text, MOST_TEXT) {
        Ok(program) => Ok(Some(program)),
        Err(ParseFail::Refused(_)) => Ok(None),
        Err(ParseFail::Memory) => Err(AllocError),
    }
}

/// The delays of the plan of least storage.
pub(crate) fn delays_of(
    alloc: Global,
    program: &Program,
    staging: &Staged,
) -> Result<Vec<u64>, AllocError>
    requires { staging.now ≡ staged (plain program.now) }
    ensures assignment { IfOk result (λ delays. IsAssignment (staged_widths (plain program.now)) delays.items) }
    ensures short { IfOk result (λ delays. HasShortDelays delays.items) }
    ensures meets { IfOk result (λ delays. MeetsWindows (staged_reads (plain program.now)) delays.items) }
{
    let net = net_of(alloc, program, staging)?;
    let (delays, flow) = solve(alloc, &net)?;
    drop(flow);
    drop(net);
    Ok(delays)
}

/// The delays and the network of a program.
pub(crate) fn built(alloc: Global, program: &Program) -> Result<(Vec<u64>, Network), BuildRefusal> {
    let staging = stage(alloc, program)?;
    let delays = delays_of(alloc, program, &staging)?;
    let network = build(alloc, program, &staging, &delays);
    drop(staging);
    Ok((delays, network?))
}
