// What is wrong with a sheet, finer than the number of its refusal: what a person is told, and in which words.
// Rests on sheets for the reader and the judgement, and on levels for the parts of test 9. A u32 fits a usize, for which there is no `From`: hence `as`.
#![tactic(auto)]

ghost use Rattle.std.specs.Prelude.{◌≡◌, ◌&&◌, Some, leb};
ghost use Rattle.std.specs.List.{list_any};
ghost use Rattle.refusals.specs.Numbers.{cause_number};
ghost use Rattle.faults.specs.Words.{words};
ghost use Rattle.faults.specs.Faults.{ends_line, malformed, start_fault, setting_fault, refused_for, fault_of};

use refusals::Cause;
use sheets::sheet::Sheet;
use sheets::{judge, sheet};
use std::fmt;

// The faults of each cause in the order in which they are looked for.
#[derive(Clone, Copy, Debug, PartialEq, Eq)]
pub enum Fault {
    // 14, the sheet is malformed
    Empty,
    TooLong,
    CarriageReturn,
    Tab,
    NotAscii,
    NoLineFeed,
    FirstLine,
    SecondLine,
    // 6 and 7
    Length,
    Rule,
    // 8: another count of symbols than n, or not in the rule's form
    Count,
    RankForm,
    HeightForm,
    // 9
    Top,
    Spacing,
    LowestLevel,
}

// What a person is told.
impl fmt::Display for Fault {
    ghost output = { λ fault. Some (words fault) };

    fn fmt<W: fmt::Write>(&self, f: &mut fmt::Formatter<W>) -> fmt::Result {
        match self {
            Fault::Empty => f.write_str("the sheet is empty"),
            Fault::TooLong => f.write_str("the sheet is longer than 128 bytes"),
            Fault::CarriageReturn => f.write_str(
                "the sheet has a carriage return: end its lines with a line feed alone",
            ),
            Fault::Tab => f.write_str("the sheet has a tab: put single spaces between its fields"),
            Fault::NotAscii => f.write_str(
                "the sheet has a byte above 127: write it in plain ASCII, without a byte order mark",
            ),
            Fault::NoLineFeed => f.write_str("the sheet does not end with a line feed"),
            Fault::FirstLine => f.write_str("the first line is not: n rule top spacing start"),
            Fault::SecondLine => f.write_str(
                "the second line is not five fields such as 3 1 -1000 100 1,1,1 (single spaces, decimals of at most 6 digits without leading zeros, 1 to 16 symbols with commas), or more follows it",
            ),
            Fault::Length => f.write_str("n is not 1 to 8"),
            Fault::Rule => f.write_str("the rule is not 1, 2 or 3"),
            Fault::Count => f.write_str("the start has not n symbols"),
            Fault::RankForm => f.write_str(
                "the start is not in rank form, as rule 1 asks: each symbol is 1 plus the number of smaller ones, such as 1,1,3",
            ),
            Fault::HeightForm => f.write_str(
                "the start is not in height form, as rules 2 and 3 ask: its symbols are 0 to some height without a gap, such as 0,0,1",
            ),
            Fault::Top => f.write_str("top is not -10000 to 2000, in hundredths of a dBm"),
            Fault::Spacing => f.write_str("spacing is not 25 to 500, in hundredths of a dB"),
            Fault::LowestLevel => f.write_str(
                "top - (n - 1) * spacing, the lowest level before it is rounded, is below -12000",
            ),
        }
    }
}

// The text has a byte from low to high.
fn has_byte(text: &[u8], low: u8, high: u8) -> bool
    ensures { result ≡ list_any (λ b. leb low b && leb b high) text.now }
{
    text.iter().any(|&b| (low <= b) & (b <= high))
}

// The last byte is a line feed.
fn ends_line(text: &[u8]) -> bool
    ensures { result ≡ ends_line text.now }
{
    text.last() == Some(&b'\n')
}

// The fault of a text that reads as no sheet.
fn malformed(text: &[u8]) -> Fault
    ensures { result ≡ malformed text.now }
{
    if text.is_empty() {
        return Fault::Empty;
    }
    if 128 < text.len() {
        return Fault::TooLong;
    }
    if has_byte(text, b'\r', b'\r') {
        return Fault::CarriageReturn;
    }
    if has_byte(text, b'\t', b'\t') {
        return Fault::Tab;
    }
    if has_byte(text, 128, 255) {
        return Fault::NotAscii;
    }
    if !ends_line(text) {
        return Fault::NoLineFeed;
    }
    if !sheet::has_title(text) {
        return Fault::FirstLine;
    }
    Fault::SecondLine
}

// The fault of a start that fails test 8.
fn start_fault(sheet: Sheet) -> Fault
    ensures { result ≡ start_fault sheet.start.count sheet.n sheet.rule }
{
    if sheet.start.count != sheet.n as usize {
        return Fault::Count;
    }
    if sheet.rule == 1 {
        return Fault::RankForm;
    }
    Fault::HeightForm
}

// The fault of a level setting that fails test 9.
fn setting_fault(sheet: Sheet) -> Fault
    ensures { result ≡ setting_fault sheet.top sheet.spacing }
{
    if !levels::top_ok(sheet.top) {
        return Fault::Top;
    }
    if !levels::spacing_ok(sheet.spacing) {
        return Fault::Spacing;
    }
    Fault::LowestLevel
}

// The fault of a sheet that was read, and refused by test 6, 7, 8 or 9.
fn refused_for(cause: Cause, sheet: Sheet) -> Fault
    ensures { result ≡ refused_for (cause_number cause) (start_fault sheet.start.count sheet.n sheet.rule) (setting_fault sheet.top sheet.spacing) }
{
    match cause {
        Cause::WindowLength => Fault::Length,
        Cause::RuleNumber => Fault::Rule,
        Cause::NotWeakOrder => start_fault(sheet),
        _ => setting_fault(sheet),
    }
}

// The fault of a text, or none where the sheet is accepted.
pub fn fault_of(text: &[u8]) -> Option<Fault>
    ensures { result ≡ fault_of text.now }
{
    let Some(sheet) = sheet::parse(text) else {
        return Some(malformed(text));
    };
    match judge::judge(sheet) {
        Ok(_) => None,
        Err(cause) => Some(refused_for(cause, sheet)),
    }
}
