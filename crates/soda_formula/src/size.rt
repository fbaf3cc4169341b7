#![tactic(auto, using(crate::proofs::Refusals::refusals))]

ghost use Rattle.std.specs.Prelude.{◌≡◌, ◌+◌, ◌<◌, ◌≤◌, ◌⊎◌, MatchBool};
ghost use Rattle.soda_words.specs.Limits.{most_brackets, most_tokens};
ghost use Rattle.soda_formula.specs.Reading.{outside, open_behind, counted, place_behind, place_outside};
ghost use Rattle.soda_formula.specs.machine.Views.{place_as};

use crate::frame::Opening;
use crate::names::opening_of;
use soda_words::{MOST_BRACKETS, MOST_TOKENS, Symbol, Token, is_reserved};

/// Where the next token of a formula stands.
#[derive(Clone, Copy)]
pub(crate) enum Place {
    /// Not in offsets, and not behind a name that offsets may follow.
    Outside,
    /// Behind a name that offsets may follow.
    BehindName,
    /// In offsets.
    InOffsets,
}

/// How large the tokens of a formula are by now.
#[derive(Clone, Copy)]
pub(crate) struct Size {
    /// How many brackets are open.
    pub(crate) brackets: u32,
    /// How many tokens count.
    pub(crate) counted: u32,
    /// Where the next token stands.
    pub(crate) place: Place,
}

impl Size {
    /// The size of no tokens.
    pub(crate) fn none() -> Size
        ensures brackets { result.brackets ≡ 0 }
        ensures counted { result.counted ≡ 0 }
        ensures place { place_as result.place ≡ outside }
    {
        Size {
            brackets: 0,
            counted: 0,
            place: Place::Outside,
        }
    }

    /// The size with one token more.
    pub(crate) fn with(self, token: &Token) -> Size
        requires few_open { self.brackets ≤ most_brackets }
        requires few_counted { self.counted ≤ most_tokens }
        ensures brackets { result.brackets ≡ open_behind self.brackets token.now }
        ensures counted { result.counted ≡ self.counted + counted (place_as self.place) token.now }
        ensures place { place_as result.place ≡ place_behind (place_as self.place) token.now }
    {
        Size {
            brackets: open_behind(self.brackets, token),
            counted: self.counted + counted(self.place, token),
            place: place_behind(self.place, token),
        }
    }

    /// Whether too many brackets are open or too many tokens count.
    pub(crate) fn is_large(self) -> bool
        ensures { MatchBool result
            ((most_brackets < self.brackets) ⊎ (most_tokens < self.counted))
            ((self.brackets ≤ most_brackets) × (self.counted ≤ most_tokens)) }
    {
        MOST_BRACKETS < self.brackets || MOST_TOKENS < self.counted
    }
}

fn open_behind(before: u32, token: &Token) -> u32
    requires { before ≤ most_brackets }
    ensures { result ≡ open_behind before token.now }
{
    match token {
        Token::Sign(symbol) => match symbol {
            Symbol::OpenRound | Symbol::OpenSquare => before + 1,
            Symbol::CloseRound | Symbol::CloseSquare => before.saturating_sub(1),
            _ => before,
        },
        Token::Name(_) | Token::Number(_) | Token::Bad => before,
    }
}

fn counted(place: Place, token: &Token) -> u32
    ensures value { result ≡ counted (place_as place) token.now }
    ensures at_most { result ≤ 1 }
{
    match place {
        Place::Outside | Place::BehindName => 1,
        Place::InOffsets => match token {
            Token::Sign(symbol) => match symbol {
                Symbol::MinusSign => 0,
                _ => 1,
            },
            Token::Name(_) | Token::Number(_) | Token::Bad => 1,
        },
    }
}

fn place_behind(place: Place, token: &Token) -> Place
    ensures { place_as result ≡ place_behind (place_as place) token.now }
{
    match place {
        Place::Outside => place_outside(token),
        Place::BehindName => match opening_of(token) {
            Opening::Round => Place::InOffsets,
            Opening::Square | Opening::Neither => place_outside(token),
        },
        Place::InOffsets => match token {
            Token::Sign(symbol) => match symbol {
                Symbol::CloseRound => Place::Outside,
                _ => Place::InOffsets,
            },
            Token::Name(_) | Token::Number(_) | Token::Bad => Place::InOffsets,
        },
    }
}

fn place_outside(token: &Token) -> Place
    ensures { place_as result ≡ place_outside token.now }
{
    match token {
        Token::Name(text) => {
            if is_reserved(text.as_slice()) {
                Place::Outside
            } else {
                Place::BehindName
            }
        }
        Token::Number(_) | Token::Sign(_) | Token::Bad => Place::Outside,
    }
}
