//! Runs of bytes on a line.
ghost use Rattle.std.specs.Prelude.{◌≡◌, ◌+◌, ◌<◌, ◌≤◌, length, drop};
ghost use Rattle.std.specs.List.{prefix_len, list_all};
ghost use Rattle.cf_eval.specs.Spelling.{is_space};
ghost use Rattle.cf_eval.specs.Reading.{after_spaces as rest_after_spaces, is_before_comma, is_before_brace};

pub(crate) fn space(b: u8) -> bool
    ensures { result ≡ is_space b }
{
    b == b' ' || b == b'\t'
}

/// How many spaces the text begins with.
fn space_len(text: &[u8]) -> usize
    ensures count { result ≡ prefix_len is_space text.now }
    ensures size { result ≤ length text.now }
{
    let mut n = 0;
    'spaces: while n < text.len() && space(text[n]) {
        n += 1;
    }
    n
}

/// The place of the first comma, or the length.
pub(crate) fn comma_at(text: &[u8]) -> usize
    ensures count { result ≡ prefix_len is_before_comma text.now }
    ensures size { result ≤ length text.now }
{
    let mut n = 0;
    'comma: while n < text.len() && text[n] != b',' {
        n += 1;
    }
    n
}

/// The place of the first closing brace, or the length.
pub(crate) fn brace_at(text: &[u8]) -> usize
    ensures count { result ≡ prefix_len is_before_brace text.now }
    ensures size { result ≤ length text.now }
{
    let mut n = 0;
    'brace: while n < text.len() && text[n] != b'}' {
        n += 1;
    }
    n
}

/// The text behind its first spaces.
pub(crate) fn after_spaces(text: &[u8]) -> &[u8]
    ensures { result.now ≡ rest_after_spaces text.now }
{
    &text[space_len(text)..]
}

/// The text behind a byte.
pub(crate) fn behind(text: &[u8], n: usize) -> &[u8]
    requires { n < length text.now }
    ensures { result.now ≡ drop (n + 1) text.now }
{
    &text[n + 1..]
}

pub(crate) fn is_blank(text: &[u8]) -> bool
    ensures { result ≡ list_all is_space text.now }
{
    text.iter().all(|b| space(*b))
}
