ghost use Rattle.std.specs.Prelude.{◌≡◌, option_map, find};
ghost use Rattle.std.specs.Option.{option_copied};
ghost use Rattle.soda_checks.specs.Names.{names_of};
ghost use Rattle.soda_checks.specs.Outline.{is_same};
ghost use Rattle.soda_checks.specs.Conditions.{are_below, first_tile, has_wrong_dims, has_wrong_tile, is_same_extent, is_same_tile, is_tensor, is_tile, is_wrong_site, param_use, site_line, wrong_dims, wrong_tile};

use crate::conditions::site_line;
use crate::names::is_listed;
use crate::{Names, Outline, Site};
use soda_formula::{Extent, InputLine, ParamLine, Size};
use soda_words::Word;
use sqlite_items::Items;

/// Whether a tensor has this name.
#[tactic(auto, using(crate::proofs::Listed::list_any_map))]
pub fn is_tensor(outline: &Outline, names: &Names, word: &Word) -> bool
    requires { names.now ≡ names_of outline.now }
    ensures { result ≡ is_tensor outline.now word.now }
{
    let _ = outline;
    is_listed(&names.inputs, word) || is_listed(&names.defined, word)
}

/// The first tile of a text.
pub fn first_tile(inputs: &[InputLine]) -> Option<&Items<Extent>>
    ensures { option_copied result ≡ first_tile inputs.now }
{
    for input in inputs {
        if let Some(tile) = &input.tile {
            return Some(tile);
        }
    }
    None
}

// Whether a left side, or a cell of a tensor, has not so many offsets.
fn has_wrong_dims(outline: &Outline, names: &Names, dims: usize, site: &Site) -> bool
    requires { names.now ≡ names_of outline.now }
    ensures { result ≡ has_wrong_dims outline.now dims site.now }
{
    match site {
        Site::Size(_) => false,
        Site::Left { offsets, .. } => offsets.len() != dims,
        Site::Cell { name, offsets } => is_tensor(outline, names, name) && offsets.len() != dims,
        Site::Value { .. } => false,
    }
}

// The line of the first site that has not so many offsets.
fn wrong_dims_at(outline: &Outline, names: &Names, dims: usize) -> Option<u64>
    requires { names.now ≡ names_of outline.now }
    ensures { result ≡ option_map site_line (find (has_wrong_dims outline.now dims) outline.now.sites) }
{
    let sites = outline.sites.as_slice();
    for site in sites {
        if has_wrong_dims(outline, names, dims, site) {
            return Some(site_line(site));
        }
    }
    None
}

/// The line of the first left side or cell that has not as many offsets as the first tile has items.
pub fn wrong_dims(outline: &Outline, names: &Names) -> Option<u64>
    requires { names.now ≡ names_of outline.now }
    ensures { result ≡ wrong_dims outline.now }
{
    match first_tile(outline.inputs.as_slice()) {
        Some(tile) => wrong_dims_at(outline, names, tile.len()),
        None => None,
    }
}

// Whether the last item and no other is `*`, and no extent is 0.
fn is_tile(items: &[Extent]) -> bool
    ensures { result ≡ is_tile items.now }
{
    for (i, item) in items.iter().enumerate() {
        match item {
            Extent::Open => return i + 1 == items.len(),
            Extent::Fixed(n) => {
                if *n == 0 {
                    return false;
                }
            }
        }
    }
    false
}

// Whether two extents are one.
fn is_same_extent(a: Extent, b: Extent) -> bool
    ensures { result ≡ is_same_extent a b }
{
    match (a, b) {
        (Extent::Fixed(m), Extent::Fixed(n)) => m == n,
        (Extent::Fixed(_), Extent::Open) => false,
        (Extent::Open, Extent::Fixed(_)) => false,
        (Extent::Open, Extent::Open) => true,
    }
}

// Whether two tiles have the same extents, in order.
fn is_same_tile(a: &[Extent], b: &[Extent]) -> bool
    ensures { result ≡ is_same_tile a.now b.now }
{
    for (i, extent) in a.iter().enumerate() {
        if i >= b.len() {
            return false;
        }
        if !is_same_extent(*extent, b[i]) {
            return false;
        }
    }
    match &b[a.len()..] {
        [] => true,
        _ => false,
    }
}

// Whether an input has a tile that is none, or not the first one.
fn has_wrong_tile(first: &[Extent], input: &InputLine) -> bool
    ensures { result ≡ has_wrong_tile first.now input.now }
{
    match &input.tile {
        Some(tile) => !(is_tile(tile.as_slice()) && is_same_tile(tile.as_slice(), first)),
        None => false,
    }
}

// The line of the name of the first input whose tile is wrong, beside the first tile of the text.
fn wrong_tile_at(first: &[Extent], inputs: &[InputLine]) -> Option<u64>
    ensures { result ≡ option_map (λ i. i.name.line) (find (has_wrong_tile first.now) inputs.now) }
{
    for input in inputs {
        if has_wrong_tile(first, input) {
            return Some(input.name.line);
        }
    }
    None
}

/// The line of the name of the first input whose tile is wrong, or of the first input where none has a
/// tile.
pub fn wrong_tile(outline: &Outline) -> Option<u64>
    ensures { result ≡ wrong_tile outline.now }
{
    let inputs = outline.inputs.as_slice();
    match first_tile(inputs) {
        Some(tile) => wrong_tile_at(tile.as_slice(), inputs),
        None => match inputs {
            [] => None,
            [input, ..] => Some(input.name.line),
        },
    }
}

/// Whether there are as many indexes as sizes, each below its size.
pub fn are_below(indexes: &[u64], sizes: &[Size]) -> bool
    ensures { result ≡ are_below indexes.now sizes.now }
{
    match indexes {
        [] => sizes.len() == 0,
        [i, is @ ..] => match sizes {
            [] => false,
            [s, ss @ ..] => *i < s.value && are_below(is, ss),
        },
    }
}

/// The param of this name.
pub fn param_of<'a>(outline: &'a Outline, names: &Names, word: &Word) -> Option<&'a ParamLine>
    requires { names.now ≡ names_of outline.now }
    ensures { option_copied result ≡ find (λ q. is_same word.now q.name) outline.now.params }
{
    match names.params.place(word.text.as_slice()) {
        Some(place) => outline.params.as_slice().get(place),
        None => None,
    }
}

// Whether it is a size of 0, a name with offsets that is no tensor, or one without that is no param
// with such indexes.
fn is_wrong_site(outline: &Outline, names: &Names, site: &Site) -> bool
    requires { names.now ≡ names_of outline.now }
    ensures { result ≡ is_wrong_site outline.now site.now }
{
    match site {
        Site::Size(size) => size.value == 0,
        Site::Left { .. } => false,
        Site::Cell { name, .. } => !is_tensor(outline, names, name),
        Site::Value { name, indexes } => match param_of(outline, names, name) {
            Some(param) => !are_below(indexes.as_slice(), param.sizes.as_slice()),
            None => true,
        },
    }
}

/// The line of the first size of 0, or of the first name in a formula that is used as what it isn't.
pub fn param_use(outline: &Outline, names: &Names) -> Option<u64>
    requires { names.now ≡ names_of outline.now }
    ensures { result ≡ param_use outline.now }
{
    let sites = outline.sites.as_slice();
    for site in sites {
        if is_wrong_site(outline, names, site) {
            return Some(site_line(site));
        }
    }
    None
}
