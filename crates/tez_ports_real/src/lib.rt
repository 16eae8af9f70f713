//! The real devices: files of the working folder, the journal's file, the folder of outputs, standard
//! output.
//!
//! They tell nothing of what they hold, since no contract can say what a file or a pipe has. Each counts
//! a fault at each error, and writes one line to standard error with the path and the system's reason,
//! as `tez: tez.out/counts: No space left on device (os error 28)`. They are thin, so that little has to
//! be trusted.
#![tactic(auto)]

mod disk;
mod file_disk;
mod files;
mod folder;
mod gate;
mod out;
mod report;
mod store;

pub use disk::NoDisk;
pub use file_disk::FileDisk;
pub use files::FolderFiles;
pub use gate::QuietGate;
pub use out::StdOut;
pub use store::FolderStore;
