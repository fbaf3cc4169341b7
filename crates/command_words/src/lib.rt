//! The words of the command `sodac`: which are taken, and what they ask for.
#![tactic(auto)]

mod command;
mod mode;
mod named;
mod order;
mod reading;

pub use mode::Mode;
pub use order::{Order, OrderFail, Source};
pub use reading::read_order;
