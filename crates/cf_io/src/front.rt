//! The front of some bytes, as far as a slice has room.
ghost use Rattle.std.specs.Prelude.{◌≡◌, ◌≤◌, ◌<◌, ◌+◌, [], ◌++◌, length, drop, take, min};

// Copies as many first bytes as fit.
fn copy_front(rest: &[u8], into: &mut [u8]) -> usize
    ensures count { result ≡ min (length rest.now) (length into.old) }
    ensures front { take result into.new ≡ take result rest.now }
{
    let count = rest.len().min(into.len());
    into[..count].copy_from_slice(&rest[..count]);
    count
}

/// Copies the bytes from that place on, as many as fit, and says how many.
pub(crate) fn copy_from(bytes: &[u8], at: usize, into: &mut [u8]) -> usize
    requires { at ≤ length bytes.now }
    ensures fits { result ≤ length into.old }
    ensures within { at + result ≤ length bytes.now }
    ensures front { drop at bytes.now ≡ take result into.new ++ drop (at + result) bytes.now }
    ensures full { result ≡ min (length (drop at bytes.now)) (length into.old) }
    ensures end { result ≡ 0 → 0 < length into.old → drop (at + result) bytes.now ≡ [] }
{
    copy_front(&bytes[at..], into)
}
