// The fields of a question, in its forty bytes, and the bytes of a begin frame.
ghost use Rattle.std.specs.Prelude.{◌++◌, [], ◌∷◌, ◌≡◌, replicate};
ghost use Rattle.frames.specs.Fields.{bits16, bytes16};
ghost use Rattle.frames.specs.Question.{is_question, is_second, letter_b, number_in, setting_in, takes_table, window_in};
ghost use Rattle.frames.specs.Question.{round_number_ok, reserved_b, reserved_s, reserved_q, begin_bytes};

use crate::field;
use levels::Setting;

// Bytes 0–3 are WKO1 or WKO2.
#[tactic(auto, unfolding(crate::specs::Question::is_question, crate::specs::Fields::part))]
pub fn is_question(f: [u8; 40]) -> bool
    ensures { result ≡ is_question f }
{
    field::same(&f[..4], b"WKO1") || field::same(&f[..4], b"WKO2")
}

// A frame of the second version.
#[tactic(auto, unfolding(crate::specs::Question::is_second, crate::specs::Fields::part))]
pub fn is_second(frame: &[u8]) -> bool
    ensures { result ≡ is_second frame.now }
{
    frame.len() == 40 && field::same(&frame[..4], b"WKO2")
}

// Byte 7 of a begin or step frame: a round number in the second version, zero in the first.
#[tactic(auto, unfolding(crate::specs::Question::round_number_ok))]
fn round_number_ok(f: [u8; 40]) -> bool
    ensures { result ≡ round_number_ok f }
{
    if is_second(&f) { f[7] != 0 } else { f[7] == 0 }
}

// Test 5 for a begin, a step and a query frame. Three functions: each names its own bytes.
#[tactic(auto, unfolding(crate::specs::Question::reserved_b, crate::specs::Fields::part))]
pub fn reserved_begin(f: [u8; 40]) -> bool
    ensures { result ≡ reserved_b f }
{
    round_number_ok(f) && field::all_zero(&f[8..16]) && field::all_zero(&f[20..24])
}

#[tactic(auto, unfolding(crate::specs::Question::reserved_s, crate::specs::Fields::part))]
pub fn reserved_step(f: [u8; 40]) -> bool
    ensures { result ≡ reserved_s f }
{
    round_number_ok(f) && field::all_zero(&f[5..7]) && field::all_zero(&f[16..40])
}

#[tactic(auto, unfolding(crate::specs::Question::reserved_q, crate::specs::Fields::part))]
pub fn reserved_query(f: [u8; 40]) -> bool
    ensures { result ≡ reserved_q f }
{
    field::all_zero(&f[5..40])
}

// Bytes 8–15, 16–19 with a table, and 24–39.
#[tactic(auto, unfolding(crate::specs::Question::number_in))]
pub fn number_in(f: [u8; 40]) -> u64
    ensures { result ≡ number_in f }
{
    u64::from_le_bytes([f[8], f[9], f[10], f[11], f[12], f[13], f[14], f[15]])
}

#[tactic(auto, unfolding(crate::specs::Question::setting_in))]
pub fn setting_in(f: [u8; 40], table: [i16; 16]) -> Setting
    ensures { result ≡ setting_in f table }
{
    Setting {
        top: i16::from_le_bytes([f[16], f[17]]),
        spacing: u16::from_le_bytes([f[18], f[19]]),
        table,
    }
}

// The frame asks for a table.
pub fn takes_table(f: [u8; 40]) -> bool
    ensures { result ≡ takes_table f }
{
    levels::on_table(setting_in(f, [0; 16]))
}

#[tactic(auto, unfolding(crate::specs::Question::window_in, crate::specs::Fields::part))]
pub fn window_in(f: [u8; 40]) -> [u8; 16]
    ensures { result ≡ window_in f }
{
    let mut window = [0; 16];
    window.copy_from_slice(&f[24..40]);
    window
}

// The fields of a begin frame before its window; the other bytes zero.
fn with_setting(n: u8, rule: u8, round: u8, top: i16, spacing: u16) -> [u8; 40]
    ensures { result ≡ replicate 4 0 ++ (letter_b ∷ n ∷ rule ∷ round ∷ []) ++ replicate 8 0 ++ bytes16 (bits16 top) ++ bytes16 spacing ++ replicate 20 0 }
{
    let mut f = [0; 40];
    f[4] = b'B';
    f[5] = n;
    f[6] = rule;
    f[7] = round;
    f[16..18].copy_from_slice(&top.to_le_bytes());
    f[18..20].copy_from_slice(&spacing.to_le_bytes());
    f
}

// The one encoder of begin frames.
#[tactic(auto, unfolding(crate::specs::Question::begin_bytes))]
pub fn begin_bytes(
    second: bool,
    n: u8,
    rule: u8,
    round: u8,
    setting: Setting,
    window: [u8; 16],
) -> [u8; 40]
    ensures { result ≡ begin_bytes second n rule round setting window }
{
    let fields = with_setting(n, rule, round, setting.top, setting.spacing);
    let f = field::with_window(fields, window);
    if second {
        field::with_header(f, b"WKO2")
    } else {
        field::with_header(f, b"WKO1")
    }
}
