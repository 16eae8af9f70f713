ghost use Rattle.std.specs.Prelude.{◌≡◌};
ghost use Rattle.tez_ids.specs.Fixed.{fixed, FitsFixed};

use crate::words::{u16_at, u32_at, u64_at};
use crate::{AttemptId, Epoch, TaskId, VertexId};

/// Writes an attempt in 22 bytes: its epoch in 8, its vertex in 2, its index in 4 and its number
/// in 8, each with the least byte first.
pub fn write_fixed(a: AttemptId, into: &mut [u8; 22])
    ensures { into.new ≡ fixed a }
{
    into[..8].copy_from_slice(&a.epoch.0.to_le_bytes());
    into[8..10].copy_from_slice(&a.task.vertex.0.to_le_bytes());
    into[10..14].copy_from_slice(&a.task.index.to_le_bytes());
    into[14..].copy_from_slice(&a.number.to_le_bytes());
}

/// Reads what `write_fixed` wrote. Each 22 bytes are those of one attempt.
pub fn read_fixed(bytes: &[u8; 22]) -> AttemptId
    ensures value { fixed result ≡ bytes.now }
    ensures fits { FitsFixed result }
    ensures inverse { (a : AttemptId) → FitsFixed a → bytes.now ≡ fixed a → result ≡ a }
{
    AttemptId {
        epoch: Epoch(u64_at(bytes, 0)),
        task: TaskId {
            vertex: VertexId(u16_at(bytes, 8)),
            index: u32_at(bytes, 10),
        },
        number: u64_at(bytes, 14),
    }
}
