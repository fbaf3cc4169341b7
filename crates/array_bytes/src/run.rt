// The run of bytes that is being read.
ghost use Rattle.std.specs.Prelude.{◌≡◌, ℕ, ◌+◌, ◌≤◌, ◌^◌, ◌++◌, ◌∷◌, [], List, min, ◌&&◌, ◌==◌, if◌then◌else◌};
ghost use Rattle.soda_words.specs.Names.{is_digit};

use crate::limits::MOST_RUN;

// The greatest magnitude that is told from greater ones: no type has its number or one beyond it.
const FAR: u128 = 0x1_0000_0000_0000_0000;

// Whether the byte is a minus sign at the front of a run, which has so many bytes before it.
#[inline]
fn is_sign(counted: u8, byte: u8) -> bool
    ensures { result ≡ ((counted == 0) && (byte == 45)) }
{
    counted == 0 && byte == b'-'
}

#[inline]
fn is_digit(byte: u8) -> bool
    ensures { result ≡ is_digit byte }
{
    byte >= b'0' && byte <= b'9'
}

// One byte more, up to one more than a cell may have.
#[inline]
fn count_up(counted: u8) -> u8
    requires { counted ≤ 65 }
    ensures { result ≡ min (counted + 1) 65 }
{
    if counted <= MOST_RUN {
        counted + 1
    } else {
        counted
    }
}

// How many signs a cell has.
fn signs(minus: bool) -> u8
    ensures { result ≡ (if minus then 1 else 0) }
{
    if minus { 1 } else { 0 }
}

// What is kept of a run: no more than its bytes say of a cell.
#[derive(Clone, Copy)]
pub(crate) struct Run {
    // How many bytes it has; one more than a cell may have stands for all beyond.
    pub(crate) counted: u8,
    // Whether a minus sign stands first.
    pub(crate) minus: bool,
    // Whether all others are digits.
    pub(crate) digits: bool,
    // The number that the digits write, and FAR for all beyond it.
    pub(crate) magnitude: u128,
    ghost few: { counted ≤ 65 },
    ghost near: { magnitude ≤ 2 ^ 64 },
}

impl Run {
    ghost use Rattle.array_bytes.specs.Machine.Scans.{IsRunOf, near_value};

    pub(crate) fn new() -> Run
        ensures empty { IsRunOf result [] }
        ensures none { result.counted ≡ 0 }
    {
        Run {
            counted: 0,
            minus: false,
            digits: true,
            magnitude: 0,
        }
    }

    // Adds a byte that is no white space.
    #[inline]
    pub(crate) fn push(&mut self, byte: u8)
        ensures { (bytes : List ℕ) → IsRunOf self.old bytes → IsRunOf self.new (bytes ++ byte ∷ []) }
    {
        let is_sign = is_sign(self.counted, byte);
        self.counted = count_up(self.counted);
        if is_sign {
            self.minus = true;
        } else if is_digit(byte) {
            self.magnitude = (self.magnitude * 10 + (byte - b'0') as u128).min(FAR);
        } else {
            self.digits = false;
        }
    }

    // The number of the run, if it is a cell; one that no type has stands for all that are as far from 0 or farther.
    pub(crate) fn value(self) -> Option<i128>
        ensures { (bytes : List ℕ) → IsRunOf self bytes → result ≡ near_value bytes }
    {
        if !self.digits {
            return None;
        }
        if self.counted > MOST_RUN {
            return None;
        }
        if self.counted <= signs(self.minus) {
            return None;
        }
        let magnitude = self.magnitude as i128;
        Some(if self.minus { -magnitude } else { magnitude })
    }
}
