ghost use Rattle.std.specs.Prelude.{◌≡◌, IfOk, map, MatchOption, slice_get};
ghost use Rattle.soda_syntax.specs.Fails.{IfRefused};
ghost use Rattle.soda_syntax.specs.machine.Refusals.{IsRefusedIn};
ghost use Rattle.soda_formula.specs.Statements.{plain_statement};
ghost use Rattle.soda_syntax.specs.SyntaxError.{IsSyntax, IsSyntaxError};
ghost use Rattle.soda_words.specs.Tokens.{tokens_of};

use crate::NoMemory;
use crate::one::read_statement;
use crate::stop::Stop;
use soda_formula::Statement;
use soda_words::{Placed, end_line, tokens};
use std::alloc::{AllocFailed, Global};

/// Why no statements were read.
#[derive(Clone, Copy)]
pub enum SyntaxFail {
    /// The text is not of the grammar, or a formula is too large: the line of the first wrong token,
    /// or that of the end of a text that ends too early.
    Refused(u64),
    /// Want of memory.
    Memory,
}

impl From<NoMemory> for SyntaxFail {
    ghost use Rattle.std.specs.Prelude.{◌≡◌};
    ghost use Rattle.soda_syntax.specs.declared.reading.SyntaxFail.{SyntaxFail};

    ghost from_gives = { λ _ fail. fail ≡ SyntaxFail.Memory };

    fn from(_error: NoMemory) -> Self {
        SyntaxFail::Memory
    }
}

impl<T: Drop> From<AllocFailed<T>> for SyntaxFail {
    ghost use Rattle.std.specs.Prelude.{◌≡◌};
    ghost use Rattle.soda_syntax.specs.declared.reading.SyntaxFail.{SyntaxFail};

    ghost from_gives = { λ _ fail. fail ≡ SyntaxFail.Memory };

    fn from(_error: AllocFailed<T>) -> Self {
        SyntaxFail::Memory
    }
}

/// The line of the token of this number, or that of the end where there is none.
fn line_at(tokens: &[Placed], at: usize, end: u64) -> u64
    ensures { MatchOption (slice_get tokens.now at) (result ≡ end) (λ token. result ≡ token.line) }
{
    match tokens.get(at) {
        Some(token) => token.line,
        None => end,
    }
}

/// The statements that the tokens of a text are, in order, where the text ends on this line.
fn read_tokens(alloc: Global, tokens: &[Placed], end: u64) -> Result<Vec<Statement>, SyntaxFail>
    ensures found { IfOk result (λ found. IsSyntax tokens.now (map plain_statement found.items)) }
    ensures refused { IfRefused result (IsRefusedIn tokens.now end) }
{
    let mut found = Vec::new(alloc);
    let mut at = 0;
    while at < tokens.len() {
        match read_statement(alloc, &tokens[at..]) {
            Ok((statement, size)) => {
                found.push(statement)?;
                at += size;
            }
            Err(stop) => match stop {
                Stop::Wrong(size) => {
                    drop(found);
                    return Err(SyntaxFail::Refused(line_at(tokens, at + size, end)));
                }
                Stop::Memory => {
                    drop(found);
                    return Err(SyntaxFail::Memory);
                }
            },
        }
    }
    Ok(found)
}

/// The statements of a text, in order.
pub fn read_statements(alloc: Global, text: &[u8]) -> Result<Vec<Statement>, SyntaxFail>
    ensures found { IfOk result (λ found. IsSyntax (tokens_of text.now) (map plain_statement found.items)) }
    ensures refused { IfRefused result (IsSyntaxError text.now) }
{
    let tokens = tokens(alloc, text)?;
    read_tokens(alloc, &tokens, end_line(text))
}
