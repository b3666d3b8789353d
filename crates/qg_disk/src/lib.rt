//! A disk as the layers above see it, by what was done to it, and three disks: one in memory that fails where
//! it is told to, one in memory that never fails, and a file.
#![tactic(auto)]

mod call;
mod calls;
mod fault;
mod file;
mod fill;
mod laws;
mod memory;
mod replay;
mod sure;
mod tear;
mod traits;

pub use call::{Bytes, Call, Request};
pub use fault::DiskFault;
pub use file::FileDisk;
pub use laws::{crashes_leave_images, leaves_what_it_holds};
pub use memory::MemDisk;
pub use sure::SureDisk;
pub use tear::Tear;
pub use traits::Disk;
