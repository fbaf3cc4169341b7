//! The conditions on the statements of a program text.
#![tactic(auto)]

mod conditions;
mod gather;
mod names;
mod need;
mod outline;
mod places;
mod types;

pub use conditions::{bad_width, float_type, is_same, missing, name_twice, twice, unknown_name};
pub use gather::make_outline;
pub use names::{Names, make_names};
pub use need::Need;
pub use outline::{Defined, Outline, Setting, SettingKind, Site};
pub use places::{are_below, first_tile, is_tensor, param_of, param_use, wrong_dims, wrong_tile};
pub use types::{is_float, type_of};
/// Want of memory.
pub use std::alloc::AllocError as NoMemory;
