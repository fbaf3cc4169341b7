//! The cells of arrays from files and into files, in text and in raw form, block by block.
//!
//! A reader takes no more of its file than the cells that are asked for need, and a writer keeps back no more than a
//! block of cells.
#![tactic(auto)]

mod feed;
mod raw_reader;
mod reader;
mod source;
mod text_reader;
mod writer;

pub use array_bytes::{CellFault, Form};
pub use reader::CellReader;
pub use writer::CellWriter;
