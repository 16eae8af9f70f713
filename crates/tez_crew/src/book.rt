// What a crew did.
ghost use Rattle.std.specs.Prelude.{◌≡◌, ◌≤◌, length, vec_len};

use tez_ids::AttemptId;

/// One place: the attempts whose orders were put there, in order, and how many of these orders its
/// container took.
#[derive(Drop)]
pub struct PlaceRecord {
    pub(crate) put: Vec<AttemptId>,
    pub(crate) taken: u64,
    ghost within: { taken ≤ vec_len put },
}

/// What a crew did: for each place the attempts whose orders were put there, and how many of these
/// orders, from the first, its container took; and the attempts whose orders the dispatcher worked.
#[derive(Drop)]
pub struct CrewBook {
    pub(crate) rows: Vec<PlaceRecord>,
    pub(crate) own: Vec<AttemptId>,
    ghost few: { length rows.items ≤ 64 },
}
