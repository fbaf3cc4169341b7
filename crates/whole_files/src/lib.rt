//! Files read and written whole, and bytes put whole into a sink.
#![tactic(auto)]

mod reading;
mod sinking;
mod writing;

pub use reading::{ReadFail, read_whole};
pub use sinking::put_whole;
pub use writing::write_whole;
