ghost use Rattle.std.specs.Prelude.{◌≡◌};
ghost use Rattle.tez_plain.specs.Reads.{reads};

use std::marker::Model;
use tez_plan::Columns;
use tez_record::Records;

/// What a head reads: its primary records, those of a join's other source, and its side, each
/// with the key columns of the edge that it came by.
#[derive(Drop)]
pub struct HeadReads {
    columns: Columns,
    primary: Records,
    partner_columns: Columns,
    partner: Records,
    side: Records,
}

impl Model for HeadReads {
    ghost use Rattle.tez_values.specs.Heads.{HeadInputs};
    ghost use Rattle.tez_plain.specs.Reads.{reads};

    ghost Value = { HeadInputs };

    ghost view = { λ r. reads r.columns r.primary r.partner_columns r.partner r.side };
}

impl HeadReads {
    pub fn new(
        columns: Columns,
        primary: Records,
        partner_columns: Columns,
        partner: Records,
        side: Records,
    ) -> HeadReads
        ensures { result ≡ reads columns primary partner_columns partner side }
    {
        HeadReads {
            columns,
            primary,
            partner_columns,
            partner,
            side,
        }
    }

    pub fn columns(&self) -> &[u16]
        ensures { result.now ≡ self.now.columns }
    {
        self.columns.as_slice()
    }

    pub fn primary(&self) -> &Records
        ensures { result.now ≡ self.now.primary }
    {
        &self.primary
    }

    pub fn partner_columns(&self) -> &[u16]
        ensures { result.now ≡ self.now.partner_columns }
    {
        self.partner_columns.as_slice()
    }

    pub fn partner(&self) -> &Records
        ensures { result.now ≡ self.now.partner }
    {
        &self.partner
    }

    pub fn side(&self) -> &Records
        ensures { result.now ≡ self.now.side }
    {
        &self.side
    }
}
