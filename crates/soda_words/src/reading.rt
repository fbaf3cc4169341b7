ghost use Rattle.std.specs.Prelude.{◌≡◌, ◌<◌, ◌≤◌, ◌+◌, ◌++◌, length, take, IfOk, OnOk, Some};
ghost use Rattle.soda_words.specs.Symbols.{double_of, single_of};
ghost use Rattle.soda_words.specs.Tokens.{first_line, first_word, front_at, is_white, placed, sign_or_bad, symbol_front, tokens_of, word_token};

use crate::lines::line_behind;
use crate::{NoMemory, Placed, Symbol, Token, is_name, is_word_byte, number};
use sqlite_items::Items;
use std::alloc::Global;

fn is_white(b: u8) -> bool
    ensures { result ≡ is_white b }
{
    b == 9 || b == 10 || b == 13 || b == 32
}

// How many bytes stand before the first line feed.
fn line_len(bytes: &[u8]) -> usize
    ensures within { result ≤ length bytes.now }
    ensures value { result ≡ length (first_line bytes.now) }
{
    let mut count = 0;
    while count < bytes.len() && bytes[count] != 10 {
        count += 1;
    }
    count
}

// How many letters, digits and `_` the bytes begin with.
pub(crate) fn word_len(bytes: &[u8]) -> usize
    ensures within { result ≤ length bytes.now }
    ensures value { result ≡ length (first_word bytes.now) }
    ensures word { take result bytes.now ≡ first_word bytes.now }
{
    let mut count = 0;
    while count < bytes.len() && is_word_byte(bytes[count]) {
        count += 1;
    }
    count
}

// The one token that a run of letters, digits and `_` is.
fn word_token(alloc: Global, word: &[u8]) -> Result<Token, NoMemory>
    ensures { IfOk result (λ token. token ≡ word_token word.now) }
{
    if is_name(word) {
        let name = Items::from_slice(alloc, word)?;
        return Ok(Token::Name(name));
    }
    match number(word) {
        Some(number) => Ok(Token::Number(number)),
        None => Ok(Token::Bad),
    }
}

// The symbol that two bytes write, if they write one.
fn double_of(a: u8, b: u8) -> Option<Symbol>
    ensures { result ≡ double_of a b }
{
    if a == b'|' && b == b'|' {
        Some(Symbol::BarBar)
    } else if a == b'&' && b == b'&' {
        Some(Symbol::AmpAmp)
    } else if a == b'=' && b == b'=' {
        Some(Symbol::EqualEqual)
    } else if a == b'!' && b == b'=' {
        Some(Symbol::BangEqual)
    } else if a == b'<' && b == b'=' {
        Some(Symbol::LessEqual)
    } else if a == b'>' && b == b'=' {
        Some(Symbol::GreaterEqual)
    } else {
        None
    }
}

// The symbol that a byte writes, if it writes one.
fn single_of(a: u8) -> Option<Symbol>
    ensures { result ≡ single_of a }
{
    match a {
        b'|' => Some(Symbol::Bar),
        b'^' => Some(Symbol::Caret),
        b'&' => Some(Symbol::Amp),
        b'<' => Some(Symbol::Less),
        b'>' => Some(Symbol::Greater),
        b'+' => Some(Symbol::PlusSign),
        b'-' => Some(Symbol::MinusSign),
        b'*' => Some(Symbol::Star),
        b'/' => Some(Symbol::Slash),
        b'%' => Some(Symbol::Percent),
        b'~' => Some(Symbol::Tilde),
        b'!' => Some(Symbol::Bang),
        b'(' => Some(Symbol::OpenRound),
        b')' => Some(Symbol::CloseRound),
        b'[' => Some(Symbol::OpenSquare),
        b']' => Some(Symbol::CloseSquare),
        b',' => Some(Symbol::Comma),
        b':' => Some(Symbol::Colon),
        b'=' => Some(Symbol::EqualSign),
        b'.' => Some(Symbol::Dot),
        _ => None,
    }
}

// The token of a byte that is no white space, no letter, digit or `_`, and begins no comment.
fn single_token(a: u8) -> Token
    ensures { result ≡ sign_or_bad (single_of a) }
{
    match single_of(a) {
        Some(symbol) => Token::Sign(symbol),
        None => Token::Bad,
    }
}

// A front of some bytes: the token that it is, if any, and how many bytes it has behind its first.
struct Front {
    token: Option<Token>,
    more: usize,
}

// The longest symbol at the front of a byte and those behind it, or a bad byte.
fn symbol_front(first: u8, behind: &[u8]) -> Front
    ensures token { result.token ≡ (symbol_front first behind.now).token }
    ensures more { result.more ≡ (symbol_front first behind.now).more }
    ensures within { result.more ≤ length behind.now }
{
    if let [second, ..] = behind {
        if let Some(symbol) = double_of(first, *second) {
            return Front {
                token: Some(Token::Sign(symbol)),
                more: 1,
            };
        }
    }
    Front {
        token: Some(single_token(first)),
        more: 0,
    }
}

// The word at the front of bytes that begin with one of its bytes.
fn word_front(alloc: Global, rest: &[u8]) -> Result<Front, NoMemory>
    requires { 0 < length (first_word rest.now) }
    ensures token { IfOk result (λ front. front.token ≡ Some (word_token (first_word rest.now))) }
    ensures more { IfOk result (λ front. front.more + 1 ≡ length (first_word rest.now)) }
    ensures within { IfOk result (λ front. front.more + 1 ≤ length rest.now) }
{
    let len = word_len(rest);
    let token = word_token(alloc, &rest[..len])?;
    Ok(Front {
        token: Some(token),
        more: len - 1,
    })
}

// What stands at the front: white space, a comment, a word, a symbol or a bad byte.
#[tactic(auto, unfolding(crate::specs::Tokens::front_of))]
fn read_front(alloc: Global, rest: &[u8]) -> Result<Front, NoMemory>
    requires { 0 < length rest.now }
    ensures token { IfOk result (λ front. front.token ≡ (front_at rest.now).token) }
    ensures more { IfOk result (λ front. front.more ≡ (front_at rest.now).more) }
    ensures within { IfOk result (λ front. front.more + 1 ≤ length rest.now) }
{
    let [first, behind @ ..] = rest else {
        unreachable!()
    };
    if is_white(*first) {
        return Ok(Front {
            token: None,
            more: 0,
        });
    }
    if *first == b'#' {
        return Ok(Front {
            token: None,
            more: line_len(behind),
        });
    }
    if is_word_byte(*first) {
        return word_front(alloc, rest);
    }
    Ok(symbol_front(*first, behind))
}

// Adds the token on its line, if there is one.
fn add_token(found: &mut Vec<Placed>, line: u64, token: Option<Token>) -> Result<(), NoMemory>
    ensures { OnOk result (found.new.items ≡ found.old.items ++ placed line token) }
{
    match token {
        Some(token) => {
            found.push(Placed { line, token })?;
            Ok(())
        }
        None => Ok(()),
    }
}

/// The tokens of a text, in order, each with the line on which it begins. Each is the longest that the
/// bytes begin with; white space and comments are none. The only error is that memory ran out.
pub fn tokens(alloc: Global, text: &[u8]) -> Result<Vec<Placed>, NoMemory>
    ensures { IfOk result (λ found. found.items ≡ tokens_of text.now) }
{
    let mut found = Vec::new(alloc);
    let mut line = 1;
    let mut rest = text;
    while rest.len() > 0 {
        let Front { token, more } = read_front(alloc, rest)?;
        add_token(&mut found, line, token)?;
        line = line_behind(line, rest[0]);
        rest = &rest[more + 1..];
    }
    Ok(found)
}
