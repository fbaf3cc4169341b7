ghost use Rattle.std.specs.Prelude.{◌≡◌};
ghost use Rattle.soda_words.specs.Symbols.{binary_of, unary_of};

use crate::{BinOp, UnOp};

/// A token of one or two bytes that is neither a name nor a number.
#[derive(Clone, Copy)]
pub enum Symbol {
    /// `||`
    BarBar,
    /// `&&`
    AmpAmp,
    /// `==`
    EqualEqual,
    /// `!=`
    BangEqual,
    /// `<=`
    LessEqual,
    /// `>=`
    GreaterEqual,
    /// `|`
    Bar,
    /// `^`
    Caret,
    /// `&`
    Amp,
    /// `<`
    Less,
    /// `>`
    Greater,
    /// `+`
    PlusSign,
    /// `-`
    MinusSign,
    /// `*`
    Star,
    /// `/`
    Slash,
    /// `%`
    Percent,
    /// `~`
    Tilde,
    /// `!`
    Bang,
    /// `(`
    OpenRound,
    /// `)`
    CloseRound,
    /// `[`
    OpenSquare,
    /// `]`
    CloseSquare,
    /// `,`
    Comma,
    /// `:`
    Colon,
    /// `=`
    EqualSign,
    /// `.`
    Dot,
}

impl Symbol {
    /// The operator that the symbol is between two operands, if it is one.
    pub fn binary(self) -> Option<BinOp>
        ensures { result ≡ binary_of self }
    {
        match self {
            Symbol::BarBar => Some(BinOp::LogOr),
            Symbol::AmpAmp => Some(BinOp::LogAnd),
            Symbol::Bar => Some(BinOp::BitOr),
            Symbol::Caret => Some(BinOp::BitXor),
            Symbol::Amp => Some(BinOp::BitAnd),
            Symbol::EqualEqual => Some(BinOp::Eq),
            Symbol::BangEqual => Some(BinOp::Ne),
            Symbol::Less => Some(BinOp::Lt),
            Symbol::LessEqual => Some(BinOp::Le),
            Symbol::Greater => Some(BinOp::Gt),
            Symbol::GreaterEqual => Some(BinOp::Ge),
            Symbol::PlusSign => Some(BinOp::Add),
            Symbol::MinusSign => Some(BinOp::Sub),
            Symbol::Star => Some(BinOp::Mul),
            Symbol::Slash => Some(BinOp::Div),
            Symbol::Percent => Some(BinOp::Rem),
            _ => None,
        }
    }

    /// The operator that the symbol is before one operand, if it is one.
    pub fn unary(self) -> Option<UnOp>
        ensures { result ≡ unary_of self }
    {
        match self {
            Symbol::PlusSign => Some(UnOp::Plus),
            Symbol::MinusSign => Some(UnOp::Minus),
            Symbol::Tilde => Some(UnOp::Flip),
            Symbol::Bang => Some(UnOp::Not),
            _ => None,
        }
    }
}
