ghost use Rattle.std.specs.Prelude.{◌≡◌};
ghost use Rattle.tez_dag_json.specs.declared.fault.DagFault.TheVariants.{NoMemory};

use std::alloc::{AllocError, AllocFailed};
use tez_ids::Name;
use tez_plan::PlanFault;
use thiserror::Error;

/// Why a DAG file is refused. A path is made of keys joined by `.` and of places of lists in
/// brackets, as `vertices[2].steps[0].op`; that of the whole document is `.`.
#[derive(Debug, PartialEq, Eq, Drop, Error)]
pub enum DagFault {
    /// The bytes are no JSON.
    #[error("not json")]
    NotJson,
    /// A value is missing or of the wrong kind, or an object has an unknown key.
    #[error("shape {}", .path.as_str())]
    Shape { path: Name },
    /// A number is outside its range, a list too long or too short, or a text too long.
    #[error("range {}", .key.as_str())]
    OutOfRange { key: Name },
    /// The parts make no valid plan.
    #[error("plan: {0}")]
    Plan(PlanFault),
    #[error("no memory")]
    NoMemory,
}

impl From<AllocError> for DagFault {
    ghost from_gives = { λ _ fault. fault ≡ NoMemory };

    fn from(_refused: AllocError) -> DagFault {
        DagFault::NoMemory
    }
}

impl<T: Drop> From<AllocFailed<T>> for DagFault {
    ghost from_gives = { λ _ fault. fault ≡ NoMemory };

    fn from(_refused: AllocFailed<T>) -> DagFault {
        DagFault::NoMemory
    }
}
