ghost use Rattle.std.specs.Prelude.{◌≡◌, Some, true};
ghost use Rattle.soda_io.specs.Cause.{Rose};
ghost use Rattle.command_words.specs.Orders.{HasForm, asked, parts_of};
ghost use Rattle.sodac_cli.specs.Allowed.{Allows, is_silent};
ghost use Rattle.sodac_cli.specs.Correct.{Completes, IsDue, Runs};
ghost use Rattle.job_status.specs.Counts.{FileFaults, OutFaults};
ghost use Rattle.job_status.specs.Lines.{Reports};
ghost use Rattle.sodac_cli.specs.Printed.{Prints};
ghost use Rattle.sodac_cli.specs.Work.{asked_of, is_built};

use crate::Status;
use crate::compile::compile;
use crate::laws::only_one_is_due;
use crate::plain::plain;
use crate::printing::print_job;
use command_words::{Mode, Order, OrderFail, read_order};
use job_status::report;
use soda_io::{Files, Sink};
use std::alloc::Global;

// Whether all that is asked for is built.
fn is_built(order: &Order<'_>) -> bool
    ensures { result ≡ is_built (asked order.now) }
{
    match order.mode {
        Mode::Check | Mode::Plain | Mode::Plan | Mode::Compile => true,
        Mode::Sim | Mode::Selftest => false,
    }
}

// Does what is asked for.
fn run<F: Files, S: Sink>(alloc: Global, order: &Order<'_>, files: &mut F, out: &mut S) -> Status
    requires { HasForm order.now.mode (parts_of (asked order.now)) }
    ensures runs { F.tells → Runs (F.given files.old) (F.store files.old) (Some (asked order.now)) (F.given files.new)
        (F.store files.new) result }
    ensures faults { FileFaults (F.faults files.old) (F.faults files.new) result }
    ensures prints { F.tells → S.tells → Prints (F.store files.old).bytes (Some (asked order.now)) (S.taken out.old)
        (S.taken out.new) result }
    ensures out_faults { OutFaults (S.faults out.old) (S.faults out.new) result }
    ensures allowed { Allows (Some (asked order.now)) result }
    ensures silent { is_silent (Some (asked order.now)) ≡ true → S.tells → S.taken out.new ≡ S.taken out.old }
    ensures silent_without_fault { is_silent (Some (asked order.now)) ≡ true → S.faults out.new ≡ S.faults out.old }
{
    if !is_built(order) {
        return Status::NotYetBuilt;
    }
    match order.mode {
        Mode::Check => print_job(alloc, order, files, out),
        Mode::Plan => print_job(alloc, order, files, out),
        Mode::Plain => plain(alloc, order, files),
        Mode::Compile => compile(alloc, order, files, out),
        Mode::Sim | Mode::Selftest => Status::NotYetBuilt,
    }
}

// Does what the words say.
fn job<F: Files, S: Sink>(alloc: Global, words: &[String], files: &mut F, out: &mut S) -> Status
    ensures runs { F.tells → Runs (F.given files.old) (F.store files.old) (asked_of words.now) (F.given files.new)
        (F.store files.new) result }
    ensures faults { FileFaults (F.faults files.old) (F.faults files.new) result }
    ensures prints { F.tells → S.tells → Prints (F.store files.old).bytes (asked_of words.now) (S.taken out.old)
        (S.taken out.new) result }
    ensures out_faults { OutFaults (S.faults out.old) (S.faults out.new) result }
    ensures allowed { Allows (asked_of words.now) result }
    ensures silent { is_silent (asked_of words.now) ≡ true → S.tells → S.taken out.new ≡ S.taken out.old }
    ensures silent_without_fault { is_silent (asked_of words.now) ≡ true → S.faults out.new ≡ S.faults out.old }
{
    match read_order(alloc, words) {
        Ok(order) => {
            let status = run(alloc, &order, files, out);
            drop(order);
            status
        }
        Err(OrderFail::Usage) => Status::Usage,
        Err(OrderFail::Memory) => Status::Memory,
    }
}

/// Does what the words say over the files, prints to `out` what the mode prints, and reports to `err` what it doesn't
/// do. The first word is the program's own name.
///
/// The status is that of the first refusal or fault, in this order: the words; a mode that isn't built yet; the
/// program's file, its text, and where sharing is asked for, the limits of sharing. All that follows is of the program
/// that is spoken of: that of the text, or the shared one. In `check` the canonical text is put to `out` then, and in
/// `plan` the least plan of the program with a certificate. In `plain` there follow the number of names and their
/// equality, the limits of the arrays, the params file and its lines, opening the inputs, creating the outputs, reading
/// each input in order, and writing each output. Want of memory may come in place of any.
pub fn execute<F: Files, S: Sink, E: Sink>(
    alloc: Global,
    words: &[String],
    files: &mut F,
    out: &mut S,
    err: &mut E,
) -> Status
    // The status is the one that is due, or a fault, or want of memory.
    ensures due { F.tells → IsDue (F.store files.old).bytes words.now result }
    // With no count of the files or of `out` risen, it is the one that is due, or want of memory.
    ensures completes { F.tells → Completes (F.store files.old).bytes words.now
        (Rose (F.faults files.old) (F.faults files.new)) (Rose (S.faults out.old) (S.faults out.new)) result }
    // The files that were asked for, each once and in order, and how far each was read; what each name holds
    // afterwards; and at Ok the texts of the arrays that the program defines.
    ensures runs { F.tells → Runs (F.given files.old) (F.store files.old) (asked_of words.now) (F.given files.new)
        (F.store files.new) result }
    // What `out` took.
    ensures prints { F.tells → S.tells → Prints (F.store files.old).bytes (asked_of words.now) (S.taken out.old)
        (S.taken out.new) result }
    // What `err` took.
    ensures reports { E.tells → Reports (E.taken err.old) (E.taken err.new) (E.faults err.old) (E.faults err.new)
        result }
    // No fault is passed over, and each has its count.
    ensures faults { FileFaults (F.faults files.old) (F.faults files.new) result }
    ensures out_faults { OutFaults (S.faults out.old) (S.faults out.new) result }
    // Whatever the files hold and tell: words that aren't taken are told as such, and so is what isn't built; and each
    // mode has its own answers.
    ensures allowed { Allows (asked_of words.now) result }
    // And nothing is printed but in a mode that prints.
    ensures silent { is_silent (asked_of words.now) ≡ true → S.tells → S.taken out.new ≡ S.taken out.old }
    ensures silent_without_fault { is_silent (asked_of words.now) ≡ true → S.faults out.new ≡ S.faults out.old }
{
    let status = job(alloc, words, files, out);
    only_one_is_due();
    report(alloc, status, err)
}
