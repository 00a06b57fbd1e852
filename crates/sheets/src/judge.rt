// What becomes of a sheet: refused with its cause, or a round. The values are judged as they were read, before any is narrowed by
// `as`.
ghost use Rattle.std.specs.Prelude.{true, map, ◌≡◌, ◌≤◌, take};
ghost use Rattle.weak_orders.specs.Window.{is_length, padded};
ghost use Rattle.sheets.specs.Judgement.{symbol_of, setting_test, raw_of, judged, judged_text};

use crate::sheet;
use crate::sheet::Sheet;
use levels::Setting;
use refusals::Cause;

// What a sheet asks for: the level setting and the start window of a round of n symbols under a rule.
#[derive(Clone, Copy)]
pub struct Round {
    pub n: usize,
    pub rule: u8,
    pub setting: Setting,
    pub window: [u8; 16],
}

// A number as a byte. One that does not fit becomes 255, which is no symbol of any window either.
fn symbol(v: u32) -> u8
    ensures { result ≡ symbol_of v }
{
    u8::try_from(v).unwrap_or(255)
}

// The first n items as a window.
fn symbols(items: [u32; 16], n: usize) -> [u8; 16]
    requires { n ≤ 16 }
    ensures { result ≡ padded (map symbol_of (take n items)) }
{
    let mut w = [0u8; 16];
    for (i, item) in items[..n].iter().enumerate() {
        w[i] = symbol(*item);
    }
    w
}

// Test 9: the level setting, where it passes.
fn setting_test(n: usize, top: i32, spacing: u32) -> Option<Setting>
    requires { is_length n ≡ true }
    ensures { result ≡ setting_test n top spacing }
{
    if !levels::top_ok(top) {
        return None;
    }
    if !levels::spacing_ok(spacing) {
        return None;
    }
    let setting = levels::setting_of(top as i16, spacing as u16);
    if !levels::setting_ok(n, setting) {
        return None;
    }
    Some(setting)
}

// Tests 6 to 9.
pub fn judge(sheet: Sheet) -> Result<Round, Cause>
    ensures { result ≡ judged (raw_of sheet) }
{
    if !(1..=8).contains(&sheet.n) {
        return Err(Cause::WindowLength);
    }
    let n = sheet.n as usize;
    if !(1..=3).contains(&sheet.rule) {
        return Err(Cause::RuleNumber);
    }
    let rule = sheet.rule as u8;
    let window = symbols(sheet.start.values, n);
    let formed = successors::in_form(rule, window, n);
    if !((sheet.start.count == n) & formed) {
        return Err(Cause::NotWeakOrder);
    }
    let setting = setting_test(n, sheet.top, sheet.spacing).ok_or(Cause::LevelSetting)?;
    Ok(Round {
        n,
        rule,
        setting,
        window,
    })
}

// A text, from test 14 on.
pub fn read_sheet(text: &[u8]) -> Result<Round, Cause>
    ensures { result ≡ judged_text text.now }
{
    let sheet = sheet::parse(text).ok_or(Cause::SheetMalformed)?;
    judge(sheet)
}
