// Input, read so that a read that fails is told from the input's end, and so that its bytes up to the failure are kept. std's `read_exact` says
// nothing of what was read where the input ends before the slice is full.
#![tactic(auto)]

ghost use Rattle.std.specs.Prelude.{◌≡◌, ◌<◌, length, take, IsNone};
ghost use Rattle.std.specs.Io.KnownBytes.{Consumes, IsAtEnd};
ghost use Rattle.std.specs.Counts.{IsPrefixLen};
ghost use Rattle.input.specs.Filled.{Filled};

use std::io;
use std::io::Read;

// How many bytes came, and why a read behind them failed, if one did. No `Result`: the bytes count where a read failed, too.
#[derive(Clone, Copy, Debug)]
pub struct Got {
    pub len: usize,
    pub failed: Option<io::Error>,
}

// One read. No bytes where it failed, and none where the input ended.
fn read_once<R: Read>(input: &mut R, out: &mut [u8]) -> Got
    ensures counts { IsPrefixLen result.len out.new }
    ensures bytes { Consumes (R.remaining input.old) (R.remaining input.new) (take result.len out.new) }
    ensures end { IsNone result.failed → result.len ≡ 0 → 0 < length out.old → IsAtEnd (R.remaining input.new) }
{
    match input.read(out) {
        Ok(len) => Got { len, failed: None },
        Err(error) => Got {
            len: 0,
            failed: Some(error),
        },
    }
}

// Reads until the slice is full, the input ends or a read fails. No index is counted: a turn adds what its read took.
pub fn fill<R: Read>(input: &mut R, out: &mut [u8]) -> Got
    ensures filled { Filled result out.new }
    ensures bytes { Consumes (R.remaining input.old) (R.remaining input.new) (take result.len out.new) }
    ensures end { IsNone result.failed → result.len < length out.new → IsAtEnd (R.remaining input.new) }
{
    let mut len = 0;
    while len < out.len() {
        let got = read_once(input, &mut out[len..]);
        if got.len == 0 {
            return Got {
                len,
                failed: got.failed,
            };
        }
        len += got.len;
    }
    Got { len, failed: None }
}
