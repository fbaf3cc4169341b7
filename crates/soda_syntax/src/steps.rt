ghost use Rattle.std.specs.Prelude.{◌≡◌, IfOk};
ghost use Rattle.soda_syntax.specs.machine.Steps.{headed, declaring, begun, after_nothing, after_burst, after_unroll, after_heading, edge_value, named_value, after_colon, typed, at_type, at_bank, after_dram, after_bank_number, after_type, at_name, after_sizes, at_size, after_size, untiled, after_input, at_item, after_item, at_offsets, more_offsets, at_component, at_magnitude, after_component, at_equals, step, finish};

use crate::NoMemory;
use crate::stage::{Heading, LeftSide, Next, Role, Setting, Stage, TileSoFar};
use soda_formula::{Extent, InputLine, ParamLine, Size, Statement};
use soda_words::{MOST_SIZES, Placed, Symbol, Token, Word, is_word};
use sqlite_items::Items;
use std::alloc::Global;

fn word(alloc: Global, line: u64, text: &[u8]) -> Result<Word, NoMemory>
    ensures { IfOk result (λ word. word ≡ record { line = line; text = text.now }) }
{
    Ok(Word {
        line,
        text: Items::from_slice(alloc, text)?,
    })
}

fn headed(setting: Setting, line: u64) -> Next
    ensures { result ≡ headed setting line }
{
    Next::Goes(Stage::SettingColon(Heading { setting, line }))
}

fn declaring(text: &[u8]) -> Next
    ensures { result ≡ declaring text.now }
{
    if is_word(b"param", text) {
        Next::Goes(Stage::TypeWord(Role::Parameter))
    } else if is_word(b"input", text) {
        Next::Goes(Stage::BankOrType(Role::Source))
    } else if is_word(b"local", text) {
        Next::Goes(Stage::TypeWord(Role::Middle))
    } else if is_word(b"output", text) {
        Next::Goes(Stage::BankOrType(Role::Target))
    } else {
        Next::Wrong
    }
}

fn begun(line: u64, text: &[u8]) -> Next
    ensures { result ≡ begun line text.now }
{
    if is_word(b"kernel", text) {
        headed(Setting::ProgramName, line)
    } else if is_word(b"burst", text) {
        Next::Goes(Stage::WidthWord(line))
    } else if is_word(b"unroll", text) {
        Next::Goes(Stage::FactorWord(line))
    } else if is_word(b"iterate", text) {
        headed(Setting::Times, line)
    } else if is_word(b"border", text) {
        headed(Setting::Edge, line)
    } else if is_word(b"cluster", text) {
        headed(Setting::Group, line)
    } else {
        declaring(text)
    }
}

fn after_nothing(line: u64, token: &Token) -> Next
    ensures { result ≡ after_nothing line token.now }
{
    match token {
        Token::Name(text) => begun(line, text.as_slice()),
        _ => Next::Wrong,
    }
}

fn after_burst(line: u64, token: &Token) -> Next
    ensures { result ≡ after_burst line token.now }
{
    match token {
        Token::Name(text) => {
            if is_word(b"width", text.as_slice()) {
                headed(Setting::Width, line)
            } else {
                Next::Wrong
            }
        }
        _ => Next::Wrong,
    }
}

fn after_unroll(line: u64, token: &Token) -> Next
    ensures { result ≡ after_unroll line token.now }
{
    match token {
        Token::Name(text) => {
            if is_word(b"factor", text.as_slice()) {
                headed(Setting::Factor, line)
            } else {
                Next::Wrong
            }
        }
        _ => Next::Wrong,
    }
}

fn after_heading(heading: Heading, token: &Token) -> Next
    ensures { result ≡ after_heading heading token.now }
{
    match token {
        Token::Sign(Symbol::Colon) => Next::Goes(Stage::SettingValue(heading)),
        _ => Next::Wrong,
    }
}

fn edge_value(line: u64, text: &[u8]) -> Next
    ensures { result ≡ edge_value line text.now }
{
    if is_word(b"ignore", text) {
        Next::Goes(Stage::Finished(Statement::Border {
            line,
            preserve: false,
        }))
    } else if is_word(b"preserve", text) {
        Next::Goes(Stage::Finished(Statement::Border {
            line,
            preserve: true,
        }))
    } else {
        Next::Wrong
    }
}

fn named_value(alloc: Global, setting: Setting, line: u64, text: &[u8]) -> Result<Next, NoMemory>
    ensures { IfOk result (λ next. next ≡ named_value setting line text.now) }
{
    Ok(match setting {
        Setting::ProgramName => {
            let text = Items::from_slice(alloc, text)?;
            Next::Goes(Stage::Finished(Statement::Kernel { line, text }))
        }
        Setting::Edge => edge_value(line, text),
        Setting::Group => Next::Goes(Stage::Finished(Statement::Cluster { line })),
        _ => Next::Wrong,
    })
}

fn after_colon(alloc: Global, heading: Heading, token: &Token) -> Result<Next, NoMemory>
    ensures { IfOk result (λ next. next ≡ after_colon heading token.now) }
{
    match token {
        Token::Name(text) => named_value(alloc, heading.setting, heading.line, text.as_slice()),
        Token::Number(number) => Ok(match heading.setting {
            Setting::Width => Next::Goes(Stage::Finished(Statement::BurstWidth {
                line: heading.line,
                width: *number,
            })),
            Setting::Factor => Next::Goes(Stage::Finished(Statement::UnrollFactor {
                line: heading.line,
                factor: *number,
            })),
            Setting::Times => Next::Goes(Stage::Finished(Statement::Iterate {
                line: heading.line,
                times: *number,
            })),
            _ => Next::Wrong,
        }),
        _ => Ok(Next::Wrong),
    }
}

fn typed(alloc: Global, role: Role, line: u64, text: &[u8]) -> Result<Next, NoMemory>
    ensures { IfOk result (λ next. next ≡ typed role line text.now) }
{
    Ok(Next::Goes(Stage::RoleColon(role, word(alloc, line, text)?)))
}

fn at_type(alloc: Global, role: Role, line: u64, token: &Token) -> Result<Next, NoMemory>
    ensures { IfOk result (λ next. next ≡ at_type role line token.now) }
{
    match token {
        Token::Name(text) => {
            if is_word(b"dram", text.as_slice()) {
                Ok(Next::Wrong)
            } else {
                typed(alloc, role, line, text.as_slice())
            }
        }
        _ => Ok(Next::Wrong),
    }
}

fn at_bank(alloc: Global, role: Role, line: u64, token: &Token) -> Result<Next, NoMemory>
    ensures { IfOk result (λ next. next ≡ at_bank role line token.now) }
{
    match token {
        Token::Name(text) => {
            if is_word(b"dram", text.as_slice()) {
                Ok(Next::Goes(Stage::BankNumber(role)))
            } else {
                typed(alloc, role, line, text.as_slice())
            }
        }
        _ => Ok(Next::Wrong),
    }
}

fn after_dram(role: Role, token: &Token) -> Next
    ensures { result ≡ after_dram role token.now }
{
    match token {
        Token::Number(_) => Next::Goes(Stage::BankMore(role)),
        _ => Next::Wrong,
    }
}

fn after_bank_number(alloc: Global, role: Role, line: u64, token: &Token) -> Result<Next, NoMemory>
    ensures { IfOk result (λ next. next ≡ after_bank_number role line token.now) }
{
    match token {
        Token::Sign(Symbol::Dot) => Ok(Next::Goes(Stage::BankNumber(role))),
        _ => at_type(alloc, role, line, token),
    }
}

fn after_type(role: Role, ty: Word, token: &Token) -> Next
    ensures { result ≡ after_type role ty token.now }
{
    match token {
        Token::Sign(Symbol::Colon) => Next::Goes(Stage::RoleName(role, ty)),
        _ => {
            drop(ty);
            Next::Wrong
        }
    }
}

fn at_name(alloc: Global, role: Role, ty: Word, line: u64, token: &Token) -> Result<Next, NoMemory>
    ensures { IfOk result (λ next. next ≡ at_name role ty line token.now) }
{
    match token {
        Token::Name(text) => {
            let name = word(alloc, line, text.as_slice())?;
            Ok(Next::Goes(match role {
                Role::Parameter => Stage::Sizes(ParamLine {
                    ty,
                    name,
                    sizes: Items::new(alloc),
                }),
                Role::Source => Stage::TileOrEnd(TileSoFar {
                    ty,
                    name,
                    items: Items::new(alloc),
                }),
                Role::Middle | Role::Target => Stage::OffsetsOpen(LeftSide {
                    role,
                    ty,
                    name,
                    offsets: Items::new(alloc),
                }),
            }))
        }
        _ => {
            drop(ty);
            Ok(Next::Wrong)
        }
    }
}

fn after_sizes(param: ParamLine, token: &Token) -> Next
    ensures { result ≡ after_sizes param token.now }
{
    match token {
        Token::Sign(Symbol::OpenSquare) => {
            if param.sizes.len() < MOST_SIZES {
                Next::Goes(Stage::SizeNumber(param))
            } else {
                Next::Whole(Statement::Param(param))
            }
        }
        _ => Next::Whole(Statement::Param(param)),
    }
}

fn at_size(mut param: ParamLine, line: u64, token: &Token) -> Result<Next, NoMemory>
    ensures { IfOk result (λ next. next ≡ at_size param line token.now) }
{
    match token {
        Token::Number(size) => {
            param.sizes.push(Size { line, value: *size })?;
            Ok(Next::Goes(Stage::SizeClose(param)))
        }
        _ => {
            drop(param);
            Ok(Next::Wrong)
        }
    }
}

fn after_size(param: ParamLine, token: &Token) -> Next
    ensures { result ≡ after_size param token.now }
{
    match token {
        Token::Sign(Symbol::CloseSquare) => Next::Goes(Stage::Sizes(param)),
        _ => {
            drop(param);
            Next::Wrong
        }
    }
}

fn untiled(input: TileSoFar) -> Statement
    ensures { result ≡ untiled input }
{
    Statement::Input(InputLine {
        ty: input.ty,
        name: input.name,
        tile: None,
    })
}

fn after_input(input: TileSoFar, token: &Token) -> Next
    ensures { result ≡ after_input input token.now }
{
    match token {
        Token::Sign(Symbol::OpenRound) => Next::Goes(Stage::TileItem(input)),
        _ => Next::Whole(untiled(input)),
    }
}

fn at_item(mut input: TileSoFar, token: &Token) -> Result<Next, NoMemory>
    ensures { IfOk result (λ next. next ≡ at_item input token.now) }
{
    let item = match token {
        Token::Number(extent) => Extent::Fixed(*extent),
        Token::Sign(Symbol::Star) => Extent::Open,
        _ => {
            drop(input);
            return Ok(Next::Wrong);
        }
    };
    input.items.push(item)?;
    Ok(Next::Goes(Stage::TileMore(input)))
}

fn after_item(input: TileSoFar, token: &Token) -> Next
    ensures { result ≡ after_item input token.now }
{
    match token {
        Token::Sign(Symbol::Comma) => Next::Goes(Stage::TileItem(input)),
        Token::Sign(Symbol::CloseRound) => {
            Next::Goes(Stage::Finished(Statement::Input(InputLine {
                ty: input.ty,
                name: input.name,
                tile: Some(input.items),
            })))
        }
        _ => {
            drop(input);
            Next::Wrong
        }
    }
}

fn at_offsets(left: LeftSide, token: &Token) -> Next
    ensures { result ≡ at_offsets left token.now }
{
    match token {
        Token::Sign(Symbol::OpenRound) => Next::Goes(Stage::Component(left)),
        _ => {
            drop(left);
            Next::Wrong
        }
    }
}

fn more_offsets(mut left: LeftSide, offset: i128) -> Result<LeftSide, NoMemory>
    ensures { IfOk result (λ left'. left' ≡ more_offsets left offset) }
{
    left.offsets.push(offset)?;
    Ok(left)
}

fn at_component(left: LeftSide, token: &Token) -> Result<Next, NoMemory>
    ensures { IfOk result (λ next. next ≡ at_component left token.now) }
{
    match token {
        Token::Number(number) => {
            let left = more_offsets(left, i128::from(*number))?;
            Ok(Next::Goes(Stage::ComponentMore(left)))
        }
        Token::Sign(Symbol::MinusSign) => Ok(Next::Goes(Stage::Magnitude(left))),
        _ => {
            drop(left);
            Ok(Next::Wrong)
        }
    }
}

fn at_magnitude(left: LeftSide, token: &Token) -> Result<Next, NoMemory>
    ensures { IfOk result (λ next. next ≡ at_magnitude left token.now) }
{
    match token {
        Token::Number(number) => {
            let left = more_offsets(left, -i128::from(*number))?;
            Ok(Next::Goes(Stage::ComponentMore(left)))
        }
        _ => {
            drop(left);
            Ok(Next::Wrong)
        }
    }
}

fn after_component(left: LeftSide, token: &Token) -> Next
    ensures { result ≡ after_component left token.now }
{
    match token {
        Token::Sign(Symbol::Comma) => Next::Goes(Stage::Component(left)),
        Token::Sign(Symbol::CloseRound) => Next::Goes(Stage::Equals(left)),
        _ => {
            drop(left);
            Next::Wrong
        }
    }
}

fn at_equals(left: LeftSide, token: &Token) -> Next
    ensures { result ≡ at_equals left token.now }
{
    match token {
        Token::Sign(Symbol::EqualSign) => Next::Goes(Stage::Formula(left)),
        _ => {
            drop(left);
            Next::Wrong
        }
    }
}

/// What a token is to what is read of a statement.
#[tactic(auto, unfolding(crate::specs::machine::Steps::step))]
pub fn step(alloc: Global, stage: Stage, placed: &Placed) -> Result<Next, NoMemory>
    ensures { IfOk result (λ next. next ≡ step stage placed.now) }
{
    let line = placed.line;
    let token = &placed.token;
    match stage {
        Stage::Start => Ok(after_nothing(line, token)),
        Stage::WidthWord(first) => Ok(after_burst(first, token)),
        Stage::FactorWord(first) => Ok(after_unroll(first, token)),
        Stage::SettingColon(heading) => Ok(after_heading(heading, token)),
        Stage::SettingValue(heading) => after_colon(alloc, heading, token),
        Stage::Finished(statement) => Ok(Next::Whole(statement)),
        Stage::BankOrType(role) => at_bank(alloc, role, line, token),
        Stage::BankNumber(role) => Ok(after_dram(role, token)),
        Stage::BankMore(role) => after_bank_number(alloc, role, line, token),
        Stage::TypeWord(role) => at_type(alloc, role, line, token),
        Stage::RoleColon(role, ty) => Ok(after_type(role, ty, token)),
        Stage::RoleName(role, ty) => at_name(alloc, role, ty, line, token),
        Stage::Sizes(param) => Ok(after_sizes(param, token)),
        Stage::SizeNumber(param) => at_size(param, line, token),
        Stage::SizeClose(param) => Ok(after_size(param, token)),
        Stage::TileOrEnd(input) => Ok(after_input(input, token)),
        Stage::TileItem(input) => at_item(input, token),
        Stage::TileMore(input) => Ok(after_item(input, token)),
        Stage::OffsetsOpen(left) => Ok(at_offsets(left, token)),
        Stage::Component(left) => at_component(left, token),
        Stage::Magnitude(left) => at_magnitude(left, token),
        Stage::ComponentMore(left) => Ok(after_component(left, token)),
        Stage::Equals(left) => Ok(at_equals(left, token)),
        Stage::Formula(left) => {
            drop(left);
            Ok(Next::Wrong)
        }
    }
}

/// The statement that may end here, but for one with a formula.
pub fn finish(stage: Stage) -> Option<Statement>
    ensures { result ≡ finish stage }
{
    match stage {
        Stage::Finished(statement) => Some(statement),
        Stage::Sizes(param) => Some(Statement::Param(param)),
        Stage::TileOrEnd(input) => Some(untiled(input)),
        other => {
            drop(other);
            None
        }
    }
}
