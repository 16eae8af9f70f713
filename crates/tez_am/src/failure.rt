// How a call comes to no text of its own.
ghost use Rattle.std.specs.Prelude.{◌≡◌};
ghost use Rattle.tez_am.specs.Say.{status_of};

use crate::status::Status;
use tez_ids::{Name, VertexId};

/// Why a call ends without its text. Of spent attempts the text names the vertex.
#[derive(Debug, Drop)]
pub enum Failure {
    Because(Status),
    Spent {
        vertex: VertexId,
        task: u32,
        name: Name,
    },
}

impl Failure {
    /// The answer that it comes to.
    pub fn into_status(self) -> Status
        ensures { result ≡ status_of self }
    {
        match self {
            Failure::Because(status) => status,
            Failure::Spent { vertex, task, .. } => Status::AttemptsSpent { vertex, task },
        }
    }
}
