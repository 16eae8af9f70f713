ghost use Rattle.std.specs.Prelude.{◌≡◌};
ghost use Rattle.tez_am.specs.Text.{exit_of};

use tez_dag_json::DagFault;
use tez_ids::{Name, VertexId};
use tez_world::Device;

/// How a call ended.
#[derive(Debug, Drop)]
pub enum Status {
    /// The sinks are published, and the text says so; of a tool, its text is written.
    Succeeded,
    /// The words are no command.
    Usage,
    /// The DAG file has this fault.
    DagRefused(DagFault),
    /// An input of this name is not there.
    InputMissing(Name),
    /// The input of this name is larger than its limit.
    InputTooLarge(Name),
    /// The input of this name could not be read.
    InputFault(Name),
    /// The sink of this name was published before.
    SinkExists(Name),
    /// The task's attempts are spent: its vertex meets a bad record.
    AttemptsSpent { vertex: VertexId, task: u32 },
    /// A call of this device failed.
    DeviceFault(Device),
    /// The vertex of this name is the first that meets a bad record.
    MeaningUndefined(Name),
    /// The text could not be written. What is published stands.
    OutFault,
    NoMemory,
}

/// The exit code of the program.
pub fn exit_code(status: &Status) -> u8
    ensures { result ≡ exit_of status.now }
{
    match status {
        Status::Succeeded => 0,
        Status::Usage => 2,
        Status::DagRefused(_) => 3,
        Status::InputMissing(_) => 4,
        Status::InputTooLarge(_) => 5,
        Status::InputFault(_) => 6,
        Status::SinkExists(_) => 7,
        Status::AttemptsSpent { .. } => 10,
        Status::DeviceFault(_) => 12,
        Status::OutFault => 14,
        Status::NoMemory => 15,
        Status::MeaningUndefined(_) => 16,
    }
}
