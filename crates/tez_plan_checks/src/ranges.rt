ghost use Rattle.std.specs.Prelude.{◌≡◌, ◌↔◌, true, IsTrue};
ghost use Rattle.std.specs.List.{list_all};
ghost use Rattle.std.specs.Option.{option_map_or};
ghost use Rattle.std.specs.Str.{is_utf8};
ghost use Rattle.tez_plan.specs.Dag.{dag_of};
ghost use Rattle.tez_plan.specs.Ranges.{IsInRanges, are_columns, are_steps, begins_with_dot, edge_in_range, head_in_range, is_column, is_file, is_file_byte, is_filter_text, is_name, is_name_byte, is_number, is_sink, is_sink_byte, is_within, movement_in_range, step_in_range, test_in_range, vertex_in_range};

use tez_ids::Name;
use tez_plan::{EdgeSpec, Head, MOST_TASKS, Movement, Step, Test, VertexSpec};

/// Whether a text may name a plan or a vertex: 1 to 64 letters, digits, `_` and `-`.
pub fn is_name(text: &str) -> bool
    ensures { result ≡ is_name text.now }
{
    is_within(1, 64, text.len()) && all_name_bytes(text.as_bytes())
}

/// Whether a text may name a file: 1 to 255 letters, digits, `_`, `-`, `.` and `/`.
pub fn is_file(text: &str) -> bool
    ensures { result ≡ is_file text.now }
{
    is_within(1, 255, text.len()) && all_file_bytes(text.as_bytes())
}

/// Whether a text may name a sink: 1 to 255 letters, digits, `_`, `-` and `.`, the first of them
/// no `.`.
pub fn is_sink(text: &str) -> bool
    ensures { result ≡ is_sink text.now }
{
    is_within(1, 255, text.len())
        && all_sink_bytes(text.as_bytes())
        && !begins_with_dot(text.as_bytes())
}

fn is_within(low: usize, high: usize, n: usize) -> bool
    ensures { result ≡ is_within low high n }
{
    low <= n && n <= high
}

fn begins_with_dot(bytes: &[u8]) -> bool
    ensures { result ≡ begins_with_dot bytes.now }
{
    match bytes {
        [] => false,
        [first, ..] => *first == b'.',
    }
}

fn all_name_bytes(bytes: &[u8]) -> bool
    ensures { result ≡ list_all is_name_byte bytes.now }
{
    bytes.iter().all(|b| is_name_byte(*b))
}

fn all_sink_bytes(bytes: &[u8]) -> bool
    ensures { result ≡ list_all is_sink_byte bytes.now }
{
    bytes.iter().all(|b| is_sink_byte(*b))
}

fn all_file_bytes(bytes: &[u8]) -> bool
    ensures { result ≡ list_all is_file_byte bytes.now }
{
    bytes.iter().all(|b| is_file_byte(*b))
}

fn is_name_byte(b: u8) -> bool
    ensures { result ≡ is_name_byte b }
{
    matches!(b, b'a'..=b'z' | b'A'..=b'Z' | b'0'..=b'9' | b'_' | b'-')
}

fn is_sink_byte(b: u8) -> bool
    ensures { result ≡ is_sink_byte b }
{
    is_name_byte(b) || b == b'.'
}

fn is_file_byte(b: u8) -> bool
    ensures { result ≡ is_file_byte b }
{
    is_sink_byte(b) || b == b'/'
}

/// Whether these may be columns: 1 to 8 of them, each at most 255.
pub fn are_columns(columns: &[u16]) -> bool
    ensures { result ≡ are_columns columns.now }
{
    is_within(1, 8, columns.len()) && all_columns(columns)
}

fn all_columns(columns: &[u16]) -> bool
    ensures { result ≡ list_all is_column columns.now }
{
    columns.iter().all(|c| is_column(*c))
}

/// Whether this may be a column: at most 255.
pub fn is_column(column: u16) -> bool
    ensures { result ≡ is_column column }
{
    column <= 255
}

/// Whether a filter may compare with these bytes: at most 255 bytes of UTF-8.
pub fn is_filter_text(text: &[u8]) -> bool
    ensures { result ≡ is_filter_text text.now }
{
    text.len() <= 255 && is_text(text)
}

fn is_text(bytes: &[u8]) -> bool
    ensures { result ≡ is_utf8 bytes.now }
{
    match str::from_utf8(bytes) {
        Ok(_) => true,
        Err(_) => false,
    }
}

/// Whether a filter may compare with this number: at most 18 digits.
pub fn is_number(number: i64) -> bool
    ensures { result ≡ is_number number }
{
    -999_999_999_999_999_999 <= number && number <= 999_999_999_999_999_999
}

fn test_in_range(test: &Test) -> bool
    ensures { result ≡ test_in_range test.now }
{
    match test {
        Test::Eq(text) | Test::Ne(text) | Test::Contains(text) => is_filter_text(text.as_slice()),
        Test::Lt(number) | Test::Gt(number) => is_number(*number),
    }
}

fn step_in_range(step: &Step) -> bool
    ensures { result ≡ step_in_range step.now }
{
    match step {
        Step::Tokenise => true,
        Step::Filter { field, test } => is_column(*field) && test_in_range(test),
        Step::Project { cols } => are_columns(cols.as_slice()),
    }
}

fn are_steps(steps: &[Step]) -> bool
    ensures { result ≡ are_steps steps.now }
{
    steps.len() <= 64 && all_steps(steps)
}

fn all_steps(steps: &[Step]) -> bool
    ensures { result ≡ list_all step_in_range steps.now }
{
    steps.iter().all(|step| step_in_range(step))
}

fn head_in_range(head: &Head) -> bool
    ensures { result ≡ head_in_range head.now }
{
    match head {
        Head::Each | Head::Count | Head::Distinct => true,
        Head::Sum { value } => is_column(*value),
        Head::Join { left } => is_name(left.as_str()),
        Head::Lookup { key, side_key }
        | Head::KeepIn { key, side_key }
        | Head::DropIn { key, side_key } => {
            are_columns(key.as_slice()) && are_columns(side_key.as_slice())
        }
    }
}

fn source_in_range(source: &Option<Name>) -> bool
    ensures { result ≡ option_map_or is_file source.now true }
{
    match source {
        Some(file) => is_file(file.as_str()),
        None => true,
    }
}

fn sink_in_range(sink: &Option<Name>) -> bool
    ensures { result ≡ option_map_or is_sink sink.now true }
{
    match sink {
        Some(name) => is_sink(name.as_str()),
        None => true,
    }
}

/// Whether each part of the vertex is in its range.
pub fn vertex_in_range(vertex: &VertexSpec) -> bool
    ensures { result ≡ vertex_in_range vertex.now }
{
    is_name(vertex.name.as_str())
        && is_within(1, MOST_TASKS as usize, vertex.tasks as usize)
        && source_in_range(&vertex.source)
        && head_in_range(&vertex.head)
        && are_steps(vertex.steps.as_slice())
        && sink_in_range(&vertex.sink)
}

fn movement_in_range(movement: &Movement) -> bool
    ensures { result ≡ movement_in_range movement.now }
{
    match movement {
        Movement::OneToOne | Movement::Broadcast => true,
        Movement::ScatterGather { keys } => are_columns(keys.as_slice()),
    }
}

/// Whether each part of the edge is in its range.
pub fn edge_in_range(edge: &EdgeSpec) -> bool
    ensures { result ≡ edge_in_range edge.now }
{
    is_name(edge.source.as_str())
        && is_name(edge.target.as_str())
        && movement_in_range(&edge.movement)
}

/// Whether `plan_new` may be called: there is a vertex, and each part is in its range.
pub fn are_in_ranges(name: &Name, vertices: &[VertexSpec], edges: &[EdgeSpec]) -> bool
    ensures { IsTrue result ↔ IsInRanges (dag_of name.now vertices.now edges.now) }
{
    is_name(name.as_str()) && !vertices.is_empty() && all_vertices(vertices) && all_edges(edges)
}

fn all_vertices(vertices: &[VertexSpec]) -> bool
    ensures { result ≡ list_all vertex_in_range vertices.now }
{
    vertices.iter().all(|vertex| vertex_in_range(vertex))
}

fn all_edges(edges: &[EdgeSpec]) -> bool
    ensures { result ≡ list_all edge_in_range edges.now }
{
    edges.iter().all(|edge| edge_in_range(edge))
}
