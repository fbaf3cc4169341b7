ghost use Rattle.std.specs.Prelude.{◌≡◌, option_map};
ghost use Rattle.soda_formula.specs.Grammar.{infix_of};
ghost use Rattle.soda_formula.specs.machine.Views.{infix_as};

use crate::frame::Infix;
use soda_words::Symbol;

/// The operator between two operands that a symbol is, if it is one.
pub(crate) fn infix_of(symbol: Symbol) -> Option<Infix>
    ensures { option_map infix_as result ≡ infix_of symbol }
{
    match symbol.binary() {
        Some(op) => Some(Infix {
            level: op.level(),
            op,
        }),
        None => None,
    }
}
