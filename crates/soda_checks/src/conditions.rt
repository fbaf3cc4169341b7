ghost use Rattle.std.specs.Prelude.{◌≡◌, List, Option, option_map, find, ℕ};
ghost use Rattle.std.specs.List.{list_any};
ghost use Rattle.soda_checks.specs.Conditions.{bad_width, float_type, has_output, is_kind, is_unknown, kind_number, missing, name_twice, site_line, twice, unknown_name};
ghost use Rattle.soda_checks.specs.Names.{names_of};
ghost use Rattle.soda_checks.specs.Outline.{is_same};

use crate::names::{is_before, is_listed};
use crate::{Defined, Names, Need, Outline, Setting, SettingKind, Site, is_float, type_of};
use soda_words::{Word, is_reserved, is_word};

/// Whether two words are written alike.
pub fn is_same(a: &Word, b: &Word) -> bool
    ensures { result ≡ is_same a.now b.now }
{
    is_word(a.text.as_slice(), b.text.as_slice())
}

// A number for each setting.
fn kind_number(kind: SettingKind) -> u8
    ensures { result ≡ kind_number kind }
{
    match kind {
        SettingKind::Kernel => 0,
        SettingKind::BurstWidth => 1,
        SettingKind::UnrollFactor => 2,
        SettingKind::Iterate => 3,
        SettingKind::Border => 4,
        SettingKind::Cluster => 5,
    }
}

// Whether one of the settings is of this kind.
fn has_kind(settings: &[Setting], kind: SettingKind) -> bool
    ensures { result ≡ list_any (is_kind kind) settings.now }
{
    for setting in settings {
        if kind_number(kind) == kind_number(setting.kind) {
            return true;
        }
    }
    false
}

// Whether there is an output.
fn has_output(defined: &[Defined]) -> bool
    ensures { result ≡ has_output defined.now }
{
    for line in defined {
        if line.is_output {
            return true;
        }
    }
    false
}

/// The first need that no statement fills.
pub fn missing(outline: &Outline) -> Option<Need>
    ensures { result ≡ missing outline.now }
{
    let settings = outline.settings.as_slice();
    if !has_kind(settings, SettingKind::Kernel) {
        return Some(Need::Kernel);
    }
    if !has_kind(settings, SettingKind::BurstWidth) {
        return Some(Need::BurstWidth);
    }
    if !has_kind(settings, SettingKind::UnrollFactor) {
        return Some(Need::UnrollFactor);
    }
    if outline.inputs.len() == 0 {
        return Some(Need::Input);
    }
    if !has_output(outline.defined.as_slice()) {
        return Some(Need::Output);
    }
    None
}

/// The line of the first type word or cast word that begins as a float type.
pub fn float_type(outline: &Outline) -> Option<u64>
    ensures { result ≡ float_type outline.now }
{
    let types = outline.types.as_slice();
    for word in types {
        if is_float(word.text.as_slice()) {
            return Some(word.line);
        }
    }
    None
}

/// The line of the first type word or cast word that stands for no integer type.
pub fn bad_width(outline: &Outline) -> Option<u64>
    ensures { result ≡ bad_width outline.now }
{
    let types = outline.types.as_slice();
    for word in types {
        if type_of(word.text.as_slice()).is_none() {
            return Some(word.line);
        }
    }
    None
}

// The line of a site.
pub(crate) fn site_line(site: &Site) -> u64
    ensures { result ≡ site_line site.now }
{
    match site {
        Site::Size(size) => size.line,
        Site::Left { name, .. } => name.line,
        Site::Cell { name, .. } => name.line,
        Site::Value { name, .. } => name.line,
    }
}

// Whether a name in a formula is declared nowhere.
#[tactic(auto, using(crate::proofs::Listed::list_any_map))]
fn is_unknown(outline: &Outline, names: &Names, site: &Site) -> bool
    requires { names.now ≡ names_of outline.now }
    ensures { result ≡ is_unknown outline.now.declared site.now }
{
    let _ = outline;
    match site {
        Site::Size(_) => false,
        Site::Left { .. } => false,
        Site::Cell { name, .. } => !is_listed(&names.declared, name),
        Site::Value { name, .. } => !is_listed(&names.declared, name),
    }
}

/// The line of the first name in a formula that is declared nowhere.
pub fn unknown_name(outline: &Outline, names: &Names) -> Option<u64>
    requires { names.now ≡ names_of outline.now }
    ensures { result ≡ unknown_name outline.now }
{
    let sites = outline.sites.as_slice();
    for site in sites {
        if is_unknown(outline, names, site) {
            return Some(site_line(site));
        }
    }
    None
}

/// The line of the first setting that repeats one.
pub fn twice(outline: &Outline) -> Option<u64>
    ensures { result ≡ twice outline.now }
{
    let settings = outline.settings.as_slice();
    for (i, setting) in settings.iter().enumerate() {
        if has_kind(&settings[..i], setting.kind) {
            return Some(setting.line);
        }
    }
    None
}

/// The line of the first declared name that is reserved or declared before it.
pub fn name_twice(outline: &Outline, names: &Names) -> Option<u64>
    requires { names.now ≡ names_of outline.now }
    ensures { result ≡ name_twice outline.now }
{
    let declared = outline.declared.as_slice();
    for (i, word) in declared.iter().enumerate() {
        if is_reserved(word.text.as_slice()) || is_before(declared, &names.declared, i, word) {
            return Some(word.line);
        }
    }
    None
}
