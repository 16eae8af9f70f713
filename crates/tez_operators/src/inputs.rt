ghost use Rattle.std.specs.Prelude.{◌≡◌};

use std::marker::Model;
use tez_ids::VertexId;
use tez_record::Records;

/// Lists of records, each from the vertex of this number, or from a source file. Contracts see
/// the list.
#[derive(Drop)]
pub struct Primary {
    parts: Vec<(Option<VertexId>, Records)>,
}

impl Model for Primary {
    ghost use Rattle.tez_operators.specs.Process.{Primary as PrimaryParts};

    ghost Value = { PrimaryParts };

    ghost view = { λ p. p.parts.items };
}

impl Primary {
    pub fn new(parts: Vec<(Option<VertexId>, Records)>) -> Self
        ensures { result ≡ parts.items }
    {
        Primary { parts }
    }

    pub fn as_slice(&self) -> &[(Option<VertexId>, Records)]
        ensures { result.now ≡ self.now }
    {
        self.parts.as_slice()
    }

    pub fn into_vec(self) -> Vec<(Option<VertexId>, Records)>
        ensures { result.items ≡ self }
    {
        self.parts
    }
}

/// What a program reads: the records of its primary inputs, in any number of lists and in any
/// order, and those of its side, where its head has one.
#[derive(Drop)]
pub struct Inputs {
    pub primary: Primary,
    pub side: Option<Records>,
}
