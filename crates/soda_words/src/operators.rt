ghost use Rattle.std.specs.Prelude.{◌≡◌};
ghost use Rattle.soda_words.specs.OperatorTable.{binary_row, unary_row};

/// The level of prefix operators: tighter than all operators between two operands.
pub const PREFIX_LEVEL: u8 = 9;

/// The level of whatever needs no brackets as an operand. Operators of this level are written as calls.
pub const OPERAND_LEVEL: u8 = 10;

/// An operator of one operand.
#[derive(Clone, Copy, Debug, PartialEq, Eq)]
pub enum UnOp {
    /// Prefix `+`: the operand.
    Plus,
    /// Prefix `-`: the operand with the other sign, wrapped.
    Minus,
    /// `~`: every bit turned, which is -v - 1, wrapped.
    Flip,
    /// `!`: 1 where the operand is 0, else 0.
    Not,
    /// `abs`: the operand without its sign, wrapped.
    Abs,
}

/// An operator of two operands.
#[derive(Clone, Copy, Debug, PartialEq, Eq)]
pub enum BinOp {
    /// `||`: 1 where an operand differs from 0, else 0.
    LogOr,
    /// `&&`: 1 where both operands differ from 0, else 0.
    LogAnd,
    /// `|`, bit by bit.
    BitOr,
    /// `^`, bit by bit.
    BitXor,
    /// `&`, bit by bit.
    BitAnd,
    /// `==`: 1 or 0.
    Eq,
    /// `!=`: 1 or 0.
    Ne,
    /// `<`: 1 or 0.
    Lt,
    /// `<=`: 1 or 0.
    Le,
    /// `>`: 1 or 0.
    Gt,
    /// `>=`: 1 or 0.
    Ge,
    /// `+`, wrapped.
    Add,
    /// `-`, wrapped.
    Sub,
    /// `*`, wrapped.
    Mul,
    /// `/`: the quotient truncated toward zero, wrapped; 0 where the divisor is 0.
    Div,
    /// `%`: what the truncated quotient leaves; the dividend where the divisor is 0.
    Rem,
    /// `min`: the lesser operand.
    Min,
    /// `max`: the greater operand.
    Max,
}

impl UnOp {
    /// How tightly the operator binds: `PREFIX_LEVEL`, or `OPERAND_LEVEL` for a call.
    pub fn level(self) -> u8
        ensures { result ≡ (unary_row self).level }
    {
        match self {
            UnOp::Plus | UnOp::Minus | UnOp::Flip | UnOp::Not => PREFIX_LEVEL,
            UnOp::Abs => OPERAND_LEVEL,
        }
    }

    /// How the operator is written, in bytes.
    pub fn spelling(self) -> &'static [u8]
        ensures { result.now ≡ (unary_row self).spelling }
    {
        match self {
            UnOp::Plus => b"+",
            UnOp::Minus => b"-",
            UnOp::Flip => b"~",
            UnOp::Not => b"!",
            UnOp::Abs => b"abs",
        }
    }
}

impl BinOp {
    /// How tightly the operator binds: from 0, the loosest, to 8, or `OPERAND_LEVEL` for a call.
    pub fn level(self) -> u8
        ensures { result ≡ (binary_row self).level }
    {
        match self {
            BinOp::LogOr => 0,
            BinOp::LogAnd => 1,
            BinOp::BitOr => 2,
            BinOp::BitXor => 3,
            BinOp::BitAnd => 4,
            BinOp::Eq | BinOp::Ne => 5,
            BinOp::Lt | BinOp::Le | BinOp::Gt | BinOp::Ge => 6,
            BinOp::Add | BinOp::Sub => 7,
            BinOp::Mul | BinOp::Div | BinOp::Rem => 8,
            BinOp::Min | BinOp::Max => OPERAND_LEVEL,
        }
    }

    /// How the operator is written, in bytes.
    pub fn spelling(self) -> &'static [u8]
        ensures { result.now ≡ (binary_row self).spelling }
    {
        match self {
            BinOp::LogOr => b"||",
            BinOp::LogAnd => b"&&",
            BinOp::BitOr => b"|",
            BinOp::BitXor => b"^",
            BinOp::BitAnd => b"&",
            BinOp::Eq => b"==",
            BinOp::Ne => b"!=",
            BinOp::Lt => b"<",
            BinOp::Le => b"<=",
            BinOp::Gt => b">",
            BinOp::Ge => b">=",
            BinOp::Add => b"+",
            BinOp::Sub => b"-",
            BinOp::Mul => b"*",
            BinOp::Div => b"/",
            BinOp::Rem => b"%",
            BinOp::Min => b"min",
            BinOp::Max => b"max",
        }
    }
}
