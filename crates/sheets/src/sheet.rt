// A sheet: its two lines are read, and the values kept as they stand there. Nothing is judged here.
ghost use Rattle.std.specs.Prelude.{◌≡◌, ◌≤◌, length};
ghost use Rattle.decimals.specs.Reading.{found, next, ended, number};
ghost use Rattle.decimals.specs.Held.{taken, taken_as};
ghost use Rattle.sheets.specs.Sheet.{sheet_of, has_title, length_and_rule, top_and_spacing, fields, sheet_lines, parse};
ghost use Rattle.sheets.specs.Held.{sheet_held, parsed_of};

use decimals::{NumberList, Taken};

// The values of the second line.
#[derive(Clone, Copy, Debug, PartialEq, Eq)]
pub struct Sheet {
    pub n: u32,
    pub rule: u32,
    pub top: i32,
    pub spacing: u32,
    pub start: NumberList,
}

// What was read at the start of a slice, and the number right behind it with a space after that.
fn and_number<T: Copy>(first: Taken<T>, s: &[u8]) -> Option<Taken<(T, u32)>>
    requires { first.len ≤ length s.now }
    ensures { result ≡ taken (next (found first.value first.len) (ended number 32) s.now) }
{
    let rest = &s[first.len..];
    let second = decimals::number(rest)?.ended(rest, b' ')?;
    Some(Taken {
        value: (first.value, second.value),
        len: first.len + second.len,
    })
}

// n and the rule, each with a space after it.
fn length_and_rule(s: &[u8]) -> Option<Taken<(u32, u32)>>
    ensures { result ≡ taken (length_and_rule s.now) }
{
    let n = decimals::number(s)?.ended(s, b' ')?;
    and_number(n, s)
}

// Top and spacing, each with a space after it.
fn top_and_spacing(s: &[u8]) -> Option<Taken<(i32, u32)>>
    ensures { result ≡ taken (top_and_spacing s.now) }
{
    let top = decimals::signed_number(s)?.ended(s, b' ')?;
    and_number(top, s)
}

// The second line: four fields, and the start with a line feed after it.
fn fields(s: &[u8]) -> Option<Taken<Sheet>>
    ensures { result ≡ taken_as (λ x. sheet_held (sheet_of x)) (fields s.now) }
{
    let first = length_and_rule(s)?;
    let second = top_and_spacing(&s[first.len..])?;
    let end = first.len + second.len;
    let rest = &s[end..];
    let start = decimals::numbers(rest)?.ended(rest, b'\n')?;
    let (n, rule) = first.value;
    let (top, spacing) = second.value;
    Some(Taken {
        value: Sheet {
            n,
            rule,
            top,
            spacing,
            start: start.value,
        },
        len: end + start.len,
    })
}

// Whether a text begins with the first line, which is the same in every sheet.
pub fn has_title(text: &[u8]) -> bool
    ensures { result ≡ has_title text.now }
{
    decimals::begins_with(text, b"n rule top spacing start\n")
}

// The two lines at the start of a text.
pub fn sheet_lines(text: &[u8]) -> Option<Taken<Sheet>>
    ensures { result ≡ taken_as sheet_held (sheet_lines text.now) }
{
    if !has_title(text) {
        return None;
    }
    let second = fields(&text[25..])?;
    Some(Taken {
        value: second.value,
        len: second.len + 25,
    })
}

// A text of at most 128 bytes that is a sheet and nothing more.
pub fn parse(text: &[u8]) -> Option<Sheet>
    ensures { result ≡ parsed_of (parse text.now) }
{
    if 128 < text.len() {
        return None;
    }
    let lines = sheet_lines(text)?;
    if lines.len != text.len() {
        return None;
    }
    Some(lines.value)
}
