ghost use Rattle.std.specs.Prelude.{◌≡◌, IfOk, IsErrOf, Some, None, map, option_map, string_bytes};
ghost use Rattle.clap.specs.Facts.{explicit_source};
ghost use Rattle.clap.specs.Matches.{found_of};
ghost use Rattle.clap.specs.Takes.{is_given};
ghost use Rattle.clap.specs.Walk.{first_of, rows_of};
ghost use Rattle.command_words.specs.Modes.{mode_row};
ghost use Rattle.command_words.specs.Orders.{HasForm, allows, allows_given, asked, named_in, order_at, order_in, order_of, parts_of};
ghost use Rattle.command_words.specs.Views.Parts.{named_of};

use crate::command::parse;
use crate::mode::mode_of;
use crate::named::{Named, read_named};
use crate::{Mode, Order, OrderFail};
use clap::ArgMatches;
use clap::parser::ValueSource;
use std::alloc::Global;

// Whether a value stands in the words, and isn't a default.
fn is_explicit(source: Option<ValueSource>) -> bool
    ensures { result ≡ explicit_source source }
{
    match source {
        Some(ValueSource::DefaultValue) => false,
        Some(ValueSource::CommandLine) | None => true,
    }
}

// Whether a flag or an option is given.
fn is_given(matches: &ArgMatches<'_>, name: &str) -> bool
    ensures { result ≡ is_given name.now (rows_of (found_of matches.now)) }
{
    let there = matches.contains_id(name);
    let explicit = is_explicit(matches.value_source(name));
    there & explicit
}

// Whether a flag or an option is taken, or isn't given.
fn allows(taken: bool, name: &str, matches: &ArgMatches<'_>) -> bool
    ensures { result ≡ allows taken name.now (rows_of (found_of matches.now)) }
{
    taken || !is_given(matches, name)
}

// Whether each flag and option that is given is one that the mode takes.
fn allows_given(mode: Mode, matches: &ArgMatches<'_>) -> bool
    ensures { result ≡ allows_given (mode_row mode) (rows_of (found_of matches.now)) }
{
    allows(mode.takes_share(), "share", matches)
        && allows(mode.takes_raw(), "raw", matches)
        && allows(mode.takes_trace(), "trace", matches)
        && allows(mode.takes_params(), "params", matches)
        && allows(mode.takes_stall(), "stall", matches)
}

// The value of an option, or of the mode's word.
fn value_of<'a>(matches: &ArgMatches<'a>, name: &str) -> Option<&'a str>
    ensures { option_map (λ v. v.now) result ≡ first_of name.now (rows_of (found_of matches.now)) }
{
    matches.get_str(name)
}

// What the words behind the mode name, where there are any.
fn named_in<'m, 'a>(mode: Mode, matches: &'m ArgMatches<'a>) -> Option<Named<'m, 'a>>
    ensures { option_map named_of result ≡ named_in (rows_of (found_of matches.now)) mode }
{
    read_named(mode, matches.get_strs("words")?)
}

// What is asked of this mode.
fn order_at<'a>(alloc: Global, mode: Mode, matches: &ArgMatches<'a>) -> Result<Order<'a>, OrderFail>
    ensures found { IfOk result (λ o. order_at (rows_of (found_of matches.now)) mode ≡ Some (asked o)) }
    ensures usage { IsErrOf result OrderFail.Usage → order_at (rows_of (found_of matches.now)) mode ≡ None }
{
    if !allows_given(mode, matches) {
        return Err(OrderFail::Usage);
    }
    let Some(named) = named_in(mode, matches) else {
        return Err(OrderFail::Usage);
    };
    let names = named.names.to_vec(alloc)?;
    Ok(Order {
        mode,
        share: is_given(matches, "share"),
        raw: is_given(matches, "raw"),
        trace: is_given(matches, "trace"),
        params: value_of(matches, "params"),
        stall: value_of(matches, "stall"),
        source: named.source,
        rows: named.rows,
        target: named.target,
        names,
    })
}

// What the matches ask for.
fn order_in<'a>(alloc: Global, matches: &ArgMatches<'a>) -> Result<Order<'a>, OrderFail>
    ensures found { IfOk result (λ o. order_in (rows_of (found_of matches.now)) ≡ Some (asked o)) }
    ensures usage { IsErrOf result OrderFail.Usage → order_in (rows_of (found_of matches.now)) ≡ None }
{
    let Some(word) = value_of(matches, "mode") else {
        return Err(OrderFail::Usage);
    };
    match mode_of(word) {
        Some(mode) => order_at(alloc, mode, matches),
        None => Err(OrderFail::Usage),
    }
}

/// What the words of a command line ask for, the first of which is the program's own name.
///
/// `Usage` where the words aren't taken: by the command's own definition, or because no mode is called so, the mode
/// doesn't take a flag or an option that is given, or the words behind it haven't its form. `Memory` where memory was
/// refused.
pub fn read_order<'a>(alloc: Global, words: &'a [String]) -> Result<Order<'a>, OrderFail>
    ensures found { IfOk result (λ order. order_of (map string_bytes words.now) ≡ Some (asked order)) }
    ensures form { IfOk result (λ order. HasForm order.mode (parts_of (asked order))) }
    ensures usage { IsErrOf result OrderFail.Usage → order_of (map string_bytes words.now) ≡ None }
{
    let matches = parse(alloc, words)?;
    let order = order_in(alloc, &matches);
    drop(matches);
    order
}
