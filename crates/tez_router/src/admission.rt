use crate::admitted::Admitted;
use std::marker::Model;

/// What admitting an attempt takes: the attempt with the room that its fetches need, and room for it
/// among those that are admitted.
#[derive(Drop)]
pub struct Admission {
    pub(crate) blank: Admitted,
    pub(crate) room: Vec<Admitted>,
}

impl Model for Admission {
    ghost use Rattle.std.specs.Prelude.{◌≡◌, [], vec_capacity};
    ghost use Rattle.tez_router.specs.Admission.{AdmissionState};

    ghost Value = { AdmissionState };

    ghost view = { λ x. record { blank = x.blank; room = vec_capacity x.room } };

    ghost invariant = { λ x. x.room.items ≡ [] };
}
