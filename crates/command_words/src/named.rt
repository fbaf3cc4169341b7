ghost use Rattle.std.specs.Prelude.{◌≡◌, map, option_map};
ghost use Rattle.command_words.specs.Orders.{arrays_named, named, number_of, program_and_file_named, program_named, seed_named};
ghost use Rattle.command_words.specs.Views.Parts.{named_of};

use crate::{Mode, Source};
use soda_words::number;

/// What the words behind a mode name.
#[derive(Clone, Copy)]
pub(crate) struct Named<'m, 'a> {
    pub(crate) source: Source<'a>,
    pub(crate) rows: Option<u64>,
    pub(crate) target: Option<&'a str>,
    pub(crate) names: &'m [&'a str],
}

// The number that a word writes.
fn number_of(word: &str) -> Option<u64>
    ensures { result ≡ number_of word.now }
{
    number(word.as_bytes())
}

// The words are PROGRAM.
fn program_named<'m, 'a>(words: &'m [&'a str]) -> Option<Named<'m, 'a>>
    ensures { option_map named_of result ≡ program_named (map (λ w. w.now) words.now) }
{
    match words {
        [name] => Some(Named {
            source: Source::Program(name),
            rows: None,
            target: None,
            names: &[],
        }),
        _ => None,
    }
}

// The words are PROGRAM FILE, two names that aren't equal.
fn program_and_file_named<'m, 'a>(words: &'m [&'a str]) -> Option<Named<'m, 'a>>
    ensures { option_map named_of result ≡ program_and_file_named (map (λ w. w.now) words.now) }
{
    match words {
        [name, file] if name != file => Some(Named {
            source: Source::Program(name),
            rows: None,
            target: Some(file),
            names: &[],
        }),
        _ => None,
    }
}

// The words are PROGRAM ROWS and any number of NAMES.
fn arrays_named<'m, 'a>(words: &'m [&'a str]) -> Option<Named<'m, 'a>>
    ensures { option_map named_of result ≡ arrays_named (map (λ w. w.now) words.now) }
{
    match words {
        [name, rows, names @ ..] => {
            let rows = number_of(rows)?;
            Some(Named {
                source: Source::Program(name),
                rows: Some(rows),
                target: None,
                names,
            })
        }
        _ => None,
    }
}

// The words are SEED.
fn seed_named<'m, 'a>(words: &'m [&'a str]) -> Option<Named<'m, 'a>>
    ensures { option_map named_of result ≡ seed_named (map (λ w. w.now) words.now) }
{
    match words {
        [seed] => {
            let seed = number_of(seed)?;
            Some(Named {
                source: Source::Seed(seed),
                rows: None,
                target: None,
                names: &[],
            })
        }
        _ => None,
    }
}

/// What the words behind a mode name, where they have the mode's form.
pub(crate) fn read_named<'m, 'a>(mode: Mode, words: &'m [&'a str]) -> Option<Named<'m, 'a>>
    ensures { option_map named_of result ≡ named mode (map (λ w. w.now) words.now) }
{
    match mode {
        Mode::Check | Mode::Plan => program_named(words),
        Mode::Compile => program_and_file_named(words),
        Mode::Plain | Mode::Sim => arrays_named(words),
        Mode::Selftest => seed_named(words),
    }
}
