// Bytes: a number's, little-endian; tests of them; and what questions and answers have at the same place.
ghost use Rattle.std.specs.Prelude.{◌++◌, ◌≡◌, take, drop};
ghost use Rattle.frames.specs.Fields.{zeros, same_bytes, bytes64};

// The eight bytes of a number.
pub fn bytes_of(x: u64) -> [u8; 8]
    ensures { result ≡ bytes64 x }
{
    x.to_le_bytes()
}

// Every byte of a slice is zero. Not `.all(..)`, which took 16 bytes more of stack in `wko_exchange`.
pub fn all_zero(s: &[u8]) -> bool
    ensures { result ≡ zeros s.now }
{
    for &byte in s {
        if byte != 0 {
            return false;
        }
    }
    true
}

// The two slices hold the same bytes. std's `==` reads groups of bytes through buffers of its own, which took 64 bytes more of stack in `wko_exchange`.
pub fn same(a: &[u8], b: &[u8]) -> bool
    ensures { result ≡ same_bytes a.now b.now }
{
    a.len() == b.len() && a.iter().zip(b).all(|(x, y)| x == y)
}

// A frame with the four letters of a header in its first bytes.
pub(crate) fn with_header(mut frame: [u8; 40], header: &[u8; 4]) -> [u8; 40]
    ensures { result ≡ header.now ++ drop 4 frame }
{
    frame[..4].copy_from_slice(header);
    frame
}

// A frame with the window in its last sixteen bytes.
pub(crate) fn with_window(mut frame: [u8; 40], w: [u8; 16]) -> [u8; 40]
    ensures { result ≡ take 24 frame ++ w }
{
    frame[24..].copy_from_slice(&w);
    frame
}
