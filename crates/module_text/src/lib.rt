//! Designs and their text. A design is a program with its staging, delays, a certificate that shows that no delays need
//! less storage, and the network of these; it has one text.
#![tactic(auto)]

mod copying;
mod held;
mod laws;
mod making;
mod printing;

pub use copying::copy_design;
pub use held::Design;
pub use laws::texts_are_apart;
pub use making::design;
pub use net_build::BuildRefusal;
pub use printing::print_design;
/// Want of memory.
pub use std::alloc::AllocError as NoMemory;
