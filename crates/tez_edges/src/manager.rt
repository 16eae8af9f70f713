ghost use Rattle.std.specs.Prelude.{◌≡◌, ◌<◌, ℕ, IfOk};
ghost use Rattle.tez_tables.specs.Table.{Table, StaysInside, IsCovered, route as routes};

use std::alloc::{AllocError, Global};

/// Which outputs of an edge are which inputs. Tasks, inputs and outputs are numbered from 0, and
/// each call asks that the numbers are below the counts. Only `route` takes memory.
pub trait EdgeManager {
    /// For each input of each consumer, the output that it is.
    ghost table: { Self → Table };

    /// How many source tasks there are.
    fn sources(&self) -> u32
        ensures { result ≡ (table self.now).sources };

    /// How many consumer tasks there are.
    fn consumers(&self) -> u32
        ensures { result ≡ (table self.now).consumers };

    /// How many inputs the consumer has over this edge.
    fn inputs_of(&self, consumer: u32) -> u32
        requires { consumer < (table self.now).consumers }
        ensures { result ≡ (table self.now).inputs_of consumer };

    /// How many outputs the source task has over this edge.
    fn outputs_of(&self, source: u32) -> u32
        requires { source < (table self.now).sources }
        ensures { result ≡ (table self.now).outputs_of source };

    /// The source task of an input, and which of its outputs it is.
    fn route_error(&self, consumer: u32, input: u32) -> (u32, u32)
        requires consumer { consumer < (table self.now).consumers }
        requires input { input < (table self.now).inputs_of consumer }
        ensures { result ≡ (table self.now).leads consumer input };

    /// The consumers of an output in order, each with the number of its input: exactly those that
    /// `route_error` leads back from. Linear in its answer.
    fn route(&self, alloc: Global, source: u32, output: u32) -> Result<Vec<(u32, u32)>, AllocError>
        requires source { source < (table self.now).sources }
        requires output { output < (table self.now).outputs_of source }
        ensures { IfOk result (λ found. found.items ≡ routes (table self.now) source output) };

    /// Each input is an output that is there.
    ghost inside: { (s : Self) → StaysInside (table s) };

    /// Each output is an input of some consumer, and of none twice.
    ghost covered: { (s : Self) → IsCovered (table s) };
}
