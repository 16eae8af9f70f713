ghost use Rattle.std.specs.Prelude.{◌≡◌, option_map};
ghost use Rattle.tez_dag_json.specs.Names.{word_and_place as named};

use tez_plan::PlanFault;

/// The word by which messages name a fault of a plan, and its place: the number of a vertex or of
/// an edge, or the limit that is passed. `None` for want of memory, which has no such message.
pub fn word_and_place(fault: PlanFault) -> Option<(&'static str, u32)>
    ensures { option_map (λ pair. (pair.0.now, pair.1)) result ≡ named fault }
{
    Some(match fault {
        PlanFault::TooMany { place } => ("too-many", place),
        PlanFault::DuplicateName { vertex } => ("duplicate-name", vertex.0 as u32),
        PlanFault::UnknownName { edge } => ("unknown-name", edge.0 as u32),
        PlanFault::DuplicateEdge { edge } => ("duplicate-edge", edge.0 as u32),
        PlanFault::Cycle { vertex } => ("cycle", vertex.0 as u32),
        PlanFault::NoPrimary { vertex } => ("no-primary", vertex.0 as u32),
        PlanFault::MixedPrimary { vertex } => ("mixed-primary", vertex.0 as u32),
        PlanFault::HeadInputs { vertex } => ("head-inputs", vertex.0 as u32),
        PlanFault::KeyDiffers { vertex } => ("key-differs", vertex.0 as u32),
        PlanFault::PartitionsDiffer { edge } => ("partitions-differ", edge.0 as u32),
        PlanFault::LeafWithoutSink { vertex } => ("leaf-without-sink", vertex.0 as u32),
        PlanFault::DuplicateSink { vertex } => ("duplicate-sink", vertex.0 as u32),
        PlanFault::NoMemory => return None,
    })
}
