//! A disk of three files: what a read gives, and what a crash at any moment may leave.
#![tactic(auto)]

mod call_list;
mod contents;
mod disk;
mod disk_file;
mod file_disk;
mod forgetful;
mod memory;
mod pending;
mod tally;

pub use disk::{Disk, FileNo};
pub use disk_file::DiskFile;
pub use file_disk::FileDisk;
pub use forgetful::{ForgetfulDisk, Loss};
pub use memory::MemoryDisk;
pub use office_base::{Failed, NoMemory};
