ghost use Rattle.std.specs.Prelude.{◌≡◌};

use tez_ports::DeviceStop;
use thiserror::Error;

/// Why a journal was not opened.
#[derive(Clone, Copy, Debug, PartialEq, Eq, Error)]
pub enum JournalFault {
    /// The disk failed.
    #[error("failed")]
    Failed,
    /// The caller's life ends here, as at a crash.
    #[error("stopped")]
    Stopped,
    /// The content of the disk is no journal.
    #[error("no journal")]
    Refused,
    #[error("no memory")]
    NoMemory,
}

/// The disk's answer as an answer of the journal.
pub fn fault_of(stop: DeviceStop) -> JournalFault
    ensures failed { stop ≡ DeviceStop.Failed → result ≡ JournalFault.Failed }
    ensures stopped { stop ≡ DeviceStop.Stopped → result ≡ JournalFault.Stopped }
{
    match stop {
        DeviceStop::Failed => JournalFault::Failed,
        DeviceStop::Stopped => JournalFault::Stopped,
    }
}
