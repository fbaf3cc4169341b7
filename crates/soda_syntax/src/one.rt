ghost use Rattle.std.specs.Prelude.{◌≡◌, ◌≤◌, IfOk, length, take, Some};
ghost use Rattle.soda_formula.specs.Tree.{term_of};
ghost use Rattle.soda_syntax.specs.machine.Stops.{IfStopped};
ghost use Rattle.soda_syntax.specs.machine.Lines.{line_of};
ghost use Rattle.soda_syntax.specs.machine.Steps.{steps};
ghost use Rattle.soda_syntax.specs.machine.Pieces.{ReadsStatement, StopsStatement};
ghost use Rattle.soda_formula.specs.Statements.{plain_statement};
ghost use Rattle.soda_syntax.specs.declared.stage.Stage.TheVariants.{Start, Formula};

use crate::stage::{LeftSide, Next, Role, Stage};
use crate::steps::{finish, step};
use crate::stop::Stop;
use soda_formula::{FormulaFail, FormulaLine, Statement, Written, read_formula};
use soda_words::Placed;
use std::alloc::Global;

/// The local or the output that a left side and a formula are.
fn line(left: LeftSide, formula: Written) -> Statement
    ensures { plain_statement result ≡ line_of left (term_of formula) }
{
    let line = FormulaLine {
        ty: left.ty,
        name: left.name,
        left: left.offsets,
        formula,
    };
    match left.role {
        Role::Target => Statement::Output(line),
        _ => Statement::Local(line),
    }
}

/// The rest of a statement whose left side is read, behind so many tokens.
fn read_line(
    alloc: Global,
    left: LeftSide,
    tokens: &[Placed],
    at: usize,
) -> Result<(Statement, usize), Stop>
    requires within { at ≤ length tokens.now }
    requires read { steps (Some Start) (take at tokens.now) ≡ Some (Formula left) }
    ensures found { IfOk result (λ found. ReadsStatement tokens.now found.1 (plain_statement found.0)) }
    ensures wrong { IfStopped result (StopsStatement tokens.now) }
{
    match read_formula(alloc, &tokens[at..]) {
        Ok((formula, size)) => Ok((line(left, formula), at + size)),
        Err(FormulaFail::Wrong(size)) => {
            drop(left);
            Err(Stop::Wrong(at + size))
        }
        Err(FormulaFail::Memory) => {
            drop(left);
            Err(Stop::Memory)
        }
    }
}

/// The statement at the front of the tokens, as long as it goes on, and how many tokens it has.
pub fn read_statement(alloc: Global, tokens: &[Placed]) -> Result<(Statement, usize), Stop>
    ensures found { IfOk result (λ found. ReadsStatement tokens.now found.1 (plain_statement found.0)) }
    ensures wrong { IfStopped result (StopsStatement tokens.now) }
{
    let mut stage = Stage::Start;
    for (at, token) in tokens.iter().enumerate() {
        let next = step(alloc, stage, token)?;
        match next {
            Next::Goes(after) => match after {
                Stage::Formula(left) => return read_line(alloc, left, tokens, at + 1),
                after => stage = after,
            },
            Next::Whole(statement) => return Ok((statement, at)),
            Next::Wrong => return Err(Stop::Wrong(at)),
        }
    }
    match finish(stage) {
        Some(statement) => Ok((statement, tokens.len())),
        None => Err(Stop::Wrong(tokens.len())),
    }
}
