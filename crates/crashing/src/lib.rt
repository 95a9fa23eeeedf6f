//! Disks that are stopped: [`Armed`] makes the calls of any disk fail from one on, and [`Crashing`] is the trait of a disk that
//! can be left as a crash leaves it.
//!
//! What is promised of a list of runs, each stopped anywhere, is over an armed disk that crashes. A disk in memory that keeps the
//! trait is `MemDisk` of `outside_mem`. What the calls of a disk do is left to `Disk` of `outside`.
#![tactic(auto)]

mod armed;
mod crashing;

pub use armed::Armed;
pub use crashing::Crashing;
