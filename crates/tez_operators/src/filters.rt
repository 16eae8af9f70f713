// The tests of filters.
ghost use Rattle.std.specs.Prelude.{◌≡◌};
ghost use Rattle.tez_values.specs.Steps.{holds, reads_number};

use tez_plan::Test;
use tez_record::{contains, field, number};

/// Whether the test reads a number.
pub fn reads_number(test: &Test) -> bool
    ensures { result ≡ reads_number test.now }
{
    match test {
        Test::Lt(_) | Test::Gt(_) => true,
        Test::Eq(_) | Test::Ne(_) | Test::Contains(_) => false,
    }
}

/// Whether the test holds of a field. One of numbers does not where there is no number.
pub fn holds(test: &Test, line: &[u8], i: u16) -> bool
    ensures { result ≡ holds test.now line.now i }
{
    match test {
        Test::Eq(value) => field(line, i) == value.as_slice(),
        Test::Ne(value) => field(line, i) != value.as_slice(),
        Test::Contains(value) => contains(field(line, i), value.as_slice()),
        Test::Lt(value) => match number(line, i) {
            Some(n) => n < *value,
            None => false,
        },
        Test::Gt(value) => match number(line, i) {
            Some(n) => *value < n,
            None => false,
        },
    }
}
