ghost use Rattle.std.specs.Prelude.{◌≡◌, ◌+◌, ◌≤◌, ◌++◌, Some, drop, length, option_map, take, OnOk};
ghost use Rattle.std.specs.List.{list_any};
ghost use Rattle.std.specs.Result.{IfErr};
ghost use Rattle.std.specs.Str.{bytes_eq};
ghost use Rattle.soda_words.specs.Limits.{most_tensors};
ghost use Rattle.soda_ir.specs.Program.{plain};
ghost use Rattle.job_files.specs.Files.{names_of};
ghost use Rattle.command_words.specs.Orders.{asked};
ghost use Rattle.command_words.specs.declared.mode.Mode.{Mode as PlainMode};
ghost use Rattle.sodac_cli.specs.Allowed.{AllowsPlain};
ghost use Rattle.sodac_cli.specs.Due.{RefusalOf, are_apart, names_fit, passed_limit};
ghost use Rattle.job_status.specs.Endings.{due, ending_of};
ghost use Rattle.sodac_cli.specs.Machine.Steps.{LetsPass};
ghost use Rattle.sodac_cli.specs.Work.{if_given, input_count, output_count, program_of, text_names};

use crate::Status;
use command_words::{Order, Source};
use soda_ir::Program;
use soda_parse::{LimitKind, Refusal};
use soda_run::array_cells;
use soda_words::{MOST_CELLS, MOST_TOTAL};

/// How many inputs a program has.
pub(crate) fn input_count(program: &Program) -> usize
    ensures { result ≡ input_count (plain program.now) }
{
    program
        .parts()
        .tensors
        .as_slice()
        .iter()
        .filter(|tensor| tensor.role.is_input())
        .count()
}

// How many outputs it has.
fn output_count(program: &Program) -> usize
    ensures count { result ≡ output_count (plain program.now) }
    ensures few { input_count (plain program.now) + result ≤ most_tensors }
{
    program
        .parts()
        .tensors
        .as_slice()
        .iter()
        .filter(|tensor| tensor.role.is_output())
        .count()
}

/// The name of the program's file. No mode that takes one has a seed.
pub(crate) fn program_name<'a>(order: &Order<'a>) -> &'a str
    ensures { result.now ≡ program_of (asked order.now) }
{
    match order.source {
        Source::Program(name) => name,
        Source::Seed(_) => "",
    }
}

// Whether a name is one of these.
fn is_one_of(name: &str, names: &[&str]) -> bool
    ensures { result ≡ list_any (bytes_eq name.now) (names_of names.now) }
{
    names.iter().any(|other| name == *other)
}

// Whether an option is given a file of this name.
fn is_given(name: &str, option: Option<&str>) -> bool
    ensures { result ≡ list_any (bytes_eq name.now) (if_given (option_map (λ n. n.now) option.entry)) }
{
    match option {
        Some(other) => name == other,
        None => false,
    }
}

// Whether a text of the job has this name.
#[tactic(auto, using(crate::proofs::Judged::any_of_two))]
fn is_text(name: &str, order: &Order<'_>) -> bool
    ensures { result ≡ list_any (bytes_eq name.now) (text_names (asked order.now)) }
{
    name == program_name(order) || is_given(name, order.params) || is_given(name, order.stall)
}

// Whether a text of the job has this name, or it is one of these.
#[tactic(auto, using(crate::proofs::Judged::any_of_two))]
fn is_among(name: &str, order: &Order<'_>, names: &[&str]) -> bool
    ensures { result ≡ list_any (bytes_eq name.now) (text_names (asked order.now) ++ names_of names.now) }
{
    is_text(name, order) || is_one_of(name, names)
}

// Whether each name from `inputs` on differs from those of the texts and from all names before it.
fn are_apart(order: &Order<'_>, names: &[&str], inputs: usize) -> bool
    requires { inputs ≤ length names.now }
    ensures { result ≡ are_apart (text_names (asked order.now) ++ take inputs (names_of names.now))
        (drop inputs (names_of names.now)) }
{
    for at in inputs..names.len() {
        if is_among(names[at], order, &names[..at]) {
            return false;
        }
    }
    true
}

// Whether there are as many names as inputs and outputs, and no output is named like another file.
fn names_fit(order: &Order<'_>, program: &Program) -> bool
    ensures { result ≡ names_fit (asked order.now) (plain program.now) }
{
    let names = order.names.as_slice();
    let inputs = input_count(program);
    if names.len() != inputs + output_count(program) {
        return false;
    }
    are_apart(order, names, inputs)
}

// The limit that the arrays of so many rows pass, if they pass one.
fn passed_limit(program: &Program, rows: u64) -> Option<Refusal>
    ensures { result ≡ passed_limit (plain program.now) rows }
{
    let cells = array_cells(program, rows);
    if cells > MOST_CELLS as u128 {
        return Some(Refusal::Limit(LimitKind::Cells, cells));
    }
    let total = cells * program.parts().tensors.len() as u128;
    if total > MOST_TOTAL as u128 {
        return Some(Refusal::Limit(LimitKind::Total, total));
    }
    None
}

/// Judges an accepted program in `plain`, before any array is asked for: by the names, and by the limits of its arrays.
pub(crate) fn judge(order: &Order<'_>, program: &Program) -> Result<(), Status>
    requires { order.now.mode ≡ PlainMode.Plain }
    ensures passes { OnOk result (LetsPass (asked order.now) (plain program.now)) }
    ensures refuses { IfErr result (λ status. RefusalOf (asked order.now) (plain program.now) (Some status)) }
    ensures allowed { IfErr result (λ status. AllowsPlain status) }
    ensures judged { IfErr result (λ status. ending_of status ≡ due) }
{
    if !names_fit(order, program) {
        return Err(Status::Usage);
    }
    match passed_limit(program, order.rows.unwrap_or(0)) {
        Some(refusal) => Err(Status::Program(refusal)),
        None => Ok(()),
    }
}
