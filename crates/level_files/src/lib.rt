// Level files: a customer's own sixteen levels, as a text.
// Rests on decimals for the readers of fields, and on levels for what a table may hold. `as` narrows an index below 16 and a level that was judged.
#![tactic(auto)]

ghost use Rattle.std.specs.Prelude.{◌≡◌};
ghost use Rattle.decimals.specs.Held.{taken};
ghost use Rattle.level_files.specs.LevelFile.{level_line, line_of, levels, read_table};
ghost use Rattle.level_files.specs.Held.{lines_of, table_read};

use decimals::Taken;

// The level on the line of d, and how many bytes the line takes.
fn level_line(s: &[u8], d: u32) -> Option<Taken<i32>>
    ensures { result ≡ taken (line_of d (level_line s.now)) }
{
    let number = decimals::number(s)?.ended(s, b' ')?;
    let rest = &s[number.len..];
    let level = decimals::signed_number(rest)?.ended(rest, b'\n')?;
    if number.value != d {
        return None;
    }
    Some(Taken {
        value: level.value,
        len: number.len + level.len,
    })
}

// The sixteen lines. A level is judged as it was read, before it is narrowed.
fn level_lines(s: &[u8]) -> Option<Taken<[i16; 16]>>
    ensures { result ≡ lines_of (levels 16 0 s.now) }
{
    let mut table = [0i16; 16];
    let mut at = 0;
    for d in 0..16 {
        let line = level_line(&s[at..], d as u32)?;
        if !levels::table::level_allowed(line.value) {
            return None;
        }
        table[d] = line.value as i16;
        at += line.len;
    }
    Some(Taken {
        value: table,
        len: at,
    })
}

// The table of a file of at most 512 bytes that is its text and nothing more.
pub fn read_table(file: &[u8]) -> Option<[i16; 16]>
    ensures { result ≡ table_read (read_table file.now) }
{
    if 512 < file.len() {
        return None;
    }
    if !decimals::begins_with(file, b"d level\n") {
        return None;
    }
    let text = &file[8..];
    let lines = level_lines(text)?;
    if lines.len != text.len() {
        return None;
    }
    if !levels::table::falls(lines.value) {
        return None;
    }
    Some(lines.value)
}
