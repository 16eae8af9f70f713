ghost use Rattle.std.specs.Prelude.{◌≡◌, length};
ghost use Rattle.std.specs.List.{list_all};
ghost use Rattle.tez_plan.specs.Ranges.{is_name_byte as name_byte, is_sink_byte as sink_byte, is_file_byte as file_byte, is_name, is_file, is_sink, begins_with_dot as dotted, is_within};

fn is_name_byte(b: u8) -> bool
    ensures { result ≡ name_byte b }
{
    matches!(b, b'a'..=b'z' | b'A'..=b'Z' | b'0'..=b'9' | b'_' | b'-')
}

fn is_sink_byte(b: u8) -> bool
    ensures { result ≡ sink_byte b }
{
    is_name_byte(b) || b == b'.'
}

fn is_file_byte(b: u8) -> bool
    ensures { result ≡ file_byte b }
{
    is_sink_byte(b) || b == b'/'
}

fn begins_with_dot(bytes: &[u8]) -> bool
    ensures { result ≡ dotted bytes.now }
{
    match bytes {
        [first, ..] => *first == b'.',
        [] => false,
    }
}

fn are_name_bytes(bytes: &[u8]) -> bool
    ensures { result ≡ list_all name_byte bytes.now }
{
    bytes.iter().all(|b| is_name_byte(*b))
}

fn are_sink_bytes(bytes: &[u8]) -> bool
    ensures { result ≡ list_all sink_byte bytes.now }
{
    bytes.iter().all(|b| is_sink_byte(*b))
}

fn are_file_bytes(bytes: &[u8]) -> bool
    ensures { result ≡ list_all file_byte bytes.now }
{
    bytes.iter().all(|b| is_file_byte(*b))
}

fn has_length(text: &str, most: usize) -> bool
    ensures { result ≡ is_within 1 most (length text.now) }
{
    1 <= text.len() && text.len() <= most
}

/// Whether the text may be the name of a plan or a vertex.
pub(crate) fn may_name(text: &str) -> bool
    ensures { result ≡ is_name text.now }
{
    has_length(text, 64) && are_name_bytes(text.as_bytes())
}

/// Whether the text may name an input file.
pub(crate) fn may_be_file(text: &str) -> bool
    ensures { result ≡ is_file text.now }
{
    has_length(text, 255) && are_file_bytes(text.as_bytes())
}

/// Whether the text may name a sink.
pub(crate) fn may_be_sink(text: &str) -> bool
    ensures { result ≡ is_sink text.now }
{
    has_length(text, 255) && are_sink_bytes(text.as_bytes()) && !begins_with_dot(text.as_bytes())
}
