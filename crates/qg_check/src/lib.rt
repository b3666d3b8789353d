//! Whether an image is sound: the first rule that it breaks, or what it stands for.
#![tactic(auto)]

mod counts;
mod image;
mod judge;
mod places;
mod read;
mod references;
mod report;
mod trees;

pub use image::Image;
pub use read::read_image;
pub use report::{CheckFault, Report, count_image};
