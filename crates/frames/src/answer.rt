// The reply to a frame, and the forty bytes of its answer.
ghost use Rattle.std.specs.Prelude.{◌++◌, [], ◌∷◌, ◌≡◌, take, drop, replicate};
ghost use Rattle.frames.specs.Fields.{bytes32, bits32, bytes64};
ghost use Rattle.frames.specs.Answer.{header_for, answer_bytes, reply_number};
ghost use Rattle.refusals.specs.Numbers.{cause_number};

use crate::field;
use refusals::Cause;

// What a frame is answered, and a level file. Only a step has a symbol and a level; the others have 0. The refused case
// carries its cause (docs/DECISIONS.md).
#[derive(Clone, Copy)]
pub enum Reply {
    Accepted { symbol: u8, level: i32 },
    Refused(Cause),
}

// An answer with its first four bytes: WKA2 to a frame of the second version, WKA1 to any other.
fn with_header(answer: [u8; 40], second: bool) -> [u8; 40]
    ensures { result ≡ header_for second ++ drop 4 answer }
{
    if second {
        field::with_header(answer, b"WKA2")
    } else {
        field::with_header(answer, b"WKA1")
    }
}

// An answer with the steps done in bytes 8 to 15.
fn with_done(mut answer: [u8; 40], done: u64) -> [u8; 40]
    ensures { result ≡ take 8 answer ++ (bytes64 done ++ drop 16 answer) }
{
    answer[8..16].copy_from_slice(&field::bytes_of(done));
    answer
}

// The symbol, the number of different symbols, the round number, and the level; the other bytes zero.
fn with_level(symbol: u8, different: u8, round: u8, level: i32) -> [u8; 40]
    ensures { result ≡ replicate 5 0 ++ (symbol ∷ different ∷ round ∷ []) ++ replicate 8 0 ++ bytes32 (bits32 level) ++ replicate 20 0 }
{
    let mut a = [0; 40];
    a[5] = symbol;
    a[6] = different;
    a[7] = round;
    a[16..20].copy_from_slice(&level.to_le_bytes());
    a
}

// The header, the number, 35 zeros.
fn refusal_bytes(second: bool, cause: Cause) -> [u8; 40]
    ensures { result ≡ header_for second ++ (cause_number cause ∷ replicate 35 0) }
{
    let mut a = [0; 40];
    a[4] = u8::from(cause);
    with_header(a, second)
}

// The one encoder of answers.
#[tactic(auto, unfolding(crate::specs::Answer::answer_bytes))]
pub fn answer_bytes(
    second: bool,
    round: u8,
    reply: Reply,
    different: u8,
    done: u64,
    window: [u8; 16],
) -> [u8; 40]
    ensures { result ≡ answer_bytes second round reply different done window }
{
    match reply {
        Reply::Accepted { symbol, level } => {
            let answer = with_level(symbol, different, round, level);
            with_header(field::with_window(with_done(answer, done), window), second)
        }
        Reply::Refused(cause) => refusal_bytes(second, cause),
    }
}

// 0 for an accepted frame, or the number of the refusal.
pub fn number(reply: Reply) -> u8
    ensures { result ≡ reply_number reply }
{
    match reply {
        Reply::Accepted { .. } => 0,
        Reply::Refused(cause) => u8::from(cause),
    }
}
