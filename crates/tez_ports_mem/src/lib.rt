//! Devices in memory, for tests and for what never fails.
//!
//! `MemFiles`, `MemDisk`, `MemStore` and `MemOut` take lists of the calls that are to fail or to be
//! stopped, numbered from 1. A failed call takes no effect; a stopped call takes effect where there is
//! memory for it, as when the answer is lost, but for a sync. A number in both lists fails. `SureFiles`,
//! `SureDisk`, `SureStore` and `SureOut` never fail nor stop, but for a name that is not readied, an
//! attempt that is not staged or a disk that is full. Of a disk a `Picker` says what a cut of the power
//! leaves. All of them tell what they hold. Of the gates `OpenGate` holds nobody, and at `PairGate` two
//! attempts meet.
#![tactic(auto)]

mod calls;
mod contents;
mod disk;
mod files;
mod gate;
mod named;
mod out;
mod pair_gate;
mod picker;
mod platter;
mod room;
mod staged;
mod store;
mod sure_disk;
mod sure_files;
mod sure_out;
mod sure_store;

pub use disk::MemDisk;
pub use files::MemFiles;
pub use gate::OpenGate;
pub use out::MemOut;
pub use pair_gate::PairGate;
pub use picker::Picker;
pub use store::MemStore;
pub use sure_disk::SureDisk;
pub use sure_files::SureFiles;
pub use sure_out::SureOut;
pub use sure_store::SureStore;
