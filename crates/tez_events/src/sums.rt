ghost use Rattle.std.specs.Prelude.{◌≡◌};

use std::marker::Model;

/// Records and bytes of each sink. Contracts see the list.
#[derive(Drop)]
pub struct Sums {
    pairs: Vec<(u64, u64)>,
}

impl Model for Sums {
    ghost use Rattle.std.specs.Prelude.{List, ℕ};

    ghost Value = { List (ℕ × ℕ) };

    ghost view = { λ s. s.pairs.items };
}

impl Sums {
    pub fn new(pairs: Vec<(u64, u64)>) -> Self
        ensures { result ≡ pairs.items }
    {
        Sums { pairs }
    }

    pub fn as_slice(&self) -> &[(u64, u64)]
        ensures { result.now ≡ self.now }
    {
        self.pairs.as_slice()
    }

    pub fn into_vec(self) -> Vec<(u64, u64)>
        ensures { result.items ≡ self }
    {
        self.pairs
    }
}
