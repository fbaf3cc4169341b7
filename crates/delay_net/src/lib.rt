//! Delays of the tensors of a stencil program, the storage that they need, and certificates that
//! show that an assignment of delays needs the least.
#![tactic(auto)]

mod certificate;
mod flow;
mod limits;
mod net;
mod storing;
mod timing;

pub use certificate::{check, is_balanced};
pub use flow::{Amounts, Flow};
pub use limits::{DELAY_END, MOST_BITS, MOST_OFFSET, MOST_READS, MOST_TENSORS};
pub use net::{Net, Read};
/// Want of memory.
pub use std::alloc::AllocError as NoMemory;
pub use storing::{storage, storage_of, storages};
pub use timing::{age_of, meets, meets_window};
