//! The bytes of arrays: which cells the bytes of a file hold, in text and in raw form, and what cells are written as.
//! Bytes come in pieces, and no call takes memory.
#![tactic(auto)]

mod fault;
mod form;
mod judging;
mod limits;
mod raw;
mod run;
mod space;
mod text_scan;
mod written;

pub use fault::CellFault;
pub use form::Form;
pub use raw::{put_raw, raw_cell, raw_size};
pub use text_scan::{Found, TextScan};
pub use written::{LONGEST_CELL, end_text, put_text};
