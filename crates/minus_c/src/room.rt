//! Bytes for the caller's room.
ghost use Rattle.std.specs.Prelude.{◌≡◌, ◌≤◌, ◌<◌, length, take, drop};

/// Puts bytes into room for them, where they fit, and answers how many they are. What is behind them stays; where they
/// do not fit, all does.
pub fn put_bytes(room: &mut [u8], bytes: &[u8]) -> usize
    ensures count { result ≡ length bytes.now }
    ensures put { length bytes.now ≤ length room.old → take (length bytes.now) room.new ≡ bytes.now }
    ensures behind { drop (length bytes.now) room.new ≡ drop (length bytes.now) room.old }
    ensures full { length room.old < length bytes.now → room.new ≡ room.old }
{
    let count = bytes.len();
    if count <= room.len() {
        room[..count].copy_from_slice(bytes);
    }
    count
}
