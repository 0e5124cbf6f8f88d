//! The key of a line: what stands before its first TAB.
ghost use Rattle.std.specs.Prelude.{◌≡◌, ◌≤◌, ◌<◌, ◌+◌, length, take, drop};
ghost use Rattle.std.specs.List.{prefix_len};
ghost use Rattle.cf_answer.specs.Forms.{is_key_byte};

/// The number of bytes before the first TAB, or of all bytes where there is none.
pub fn key_size(line: &[u8]) -> usize
    ensures count { result ≡ prefix_len is_key_byte line.now }
    ensures size { result ≤ length line.now }
{
    let mut n = 0;
    'key: while n < line.len() && line[n] != b'\t' {
        n += 1;
    }
    n
}

/// The first bytes, and one more.
pub fn key_of(line: &[u8], size: usize) -> &[u8]
    requires { size < length line.now }
    ensures { result.now ≡ take (size + 1) line.now }
{
    &line[..size + 1]
}

/// What stands behind these.
pub fn behind_key(line: &[u8], size: usize) -> &[u8]
    requires { size < length line.now }
    ensures { result.now ≡ drop (size + 1) line.now }
{
    &line[size + 1..]
}
