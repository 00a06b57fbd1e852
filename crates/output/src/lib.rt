// Output, written so that what went is known where a write fails. std's `write_all` says nothing of that.
#![tactic(auto)]

ghost use Rattle.std.specs.Prelude.{◌≡◌, ◌<◌, ◌≤◌, length, take, IsNone, IsSome};
ghost use Rattle.std.specs.Io.KnownBytes.{Appends};

use std::io;
use std::io::{ErrorKind, Write};

// How many bytes went, and why no more did, if not all. No `Result`: the bytes that went count where a write failed, too.
#[derive(Clone, Copy, Debug)]
pub struct Written {
    pub len: usize,
    pub failed: Option<io::Error>,
}

// One write. A write that takes nothing has failed.
fn write_once<W: Write>(output: &mut W, bytes: &[u8]) -> Written
    ensures within { result.len ≤ length bytes.now }
    ensures bytes { Appends (W.contents output.old) (W.contents output.new) (take result.len bytes.now) }
    ensures stopped { result.len ≡ 0 → IsSome result.failed }
{
    match output.write(bytes) {
        Ok(0) => Written {
            len: 0,
            failed: Some(io::Error::from(ErrorKind::WriteZero)),
        },
        Ok(len) => Written { len, failed: None },
        Err(error) => Written {
            len: 0,
            failed: Some(error),
        },
    }
}

// Writes until all is written or a write fails. No index is counted: a turn adds what its write took. `input::fill` reads so, and says other things.
pub fn put<W: Write>(output: &mut W, bytes: &[u8]) -> Written
    ensures bytes { Appends (W.contents output.old) (W.contents output.new) (take result.len bytes.now) }
    ensures whole { IsNone result.failed → result.len ≡ length bytes.now }
    ensures short { IsSome result.failed → result.len < length bytes.now }
{
    let mut len = 0;
    while len < bytes.len() {
        let part = write_once(output, &bytes[len..]);
        if part.len == 0 {
            return Written {
                len,
                failed: part.failed,
            };
        }
        len += part.len;
    }
    Written { len, failed: None }
}
