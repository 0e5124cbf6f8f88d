//! What is handed back through the buffers of the caller.
ghost use Rattle.std.specs.Prelude.{◌≡◌, ◌++◌, length, take, drop, nat_le};
ghost use Rattle.cf_c.specs.Answered.{IsFilled, fit, fitting};

// Copies as many first bytes as fit, and says how many.
fn copy_front(held: &[u8], room: &mut [u8]) -> usize
    ensures count { result ≡ fitting room.old held.now }
    ensures bytes { room.new ≡ take result held.now ++ drop result room.old }
{
    let count = held.len().min(room.len());
    room[..count].copy_from_slice(&held[..count]);
    count
}

/// Puts as many first bytes into `room` as fit, and says how many there are in all.
pub fn put(held: &[u8], room: &mut [u8]) -> usize
    ensures { IsFilled room.old room.new result held.now }
{
    copy_front(held, room);
    held.len()
}

/// Whether this is within a buffer.
pub fn fits(bytes: &[u8], room: &[u8]) -> bool
    ensures { result ≡ nat_le (length bytes.now) (length room.now) }
{
    bytes.len() <= room.len()
}

/// Whether both are within their buffers.
pub fn both_fit(said: &[u8], out: &[u8], told: &[u8], err: &[u8]) -> bool
    ensures { result ≡ fit said.now out.now told.now err.now }
{
    fits(said, out) && fits(told, err)
}
