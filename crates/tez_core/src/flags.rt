//! Flags by vertex.
ghost use Rattle.std.specs.Prelude.{◌≡◌, true, false, map, slice_set};

use tez_ids::VertexId;

/// Sets a flag, where it is there.
pub(crate) fn set_flag(flags: &mut [bool], v: VertexId)
    ensures { flags.new ≡ slice_set flags.old v.0 true }
{
    let v = v.0 as usize;
    if v < flags.len() {
        flags[v] = true;
    }
}

pub(crate) fn clear_all(flags: &mut [bool])
    ensures { flags.new ≡ map (λ b. false) flags.old }
{
    for flag in flags.iter_mut() {
        *flag = false;
    }
}
