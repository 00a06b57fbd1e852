// Sheets, good and bad, through the library. Standard input has for each its name and its text, each ended by `#`, and a line feed. For each
// the program prints the name and what `round` prints for the text, of a long round the first page.
// stdout was written from document 01 and not from this program: by host/sheet_answers.c, which reads a sheet by one pattern.
#![tactic(auto)]

ghost use Rattle.std.specs.Prelude.{◌≤◌, length};

use printing::Printing;
use refusals::Cause;
use sheets::judge;
use sheets::judge::Round;
use std::io;

fn print_opening(rt: &impl Print, told: Result<(), Cause>) -> io::Result<()> {
    let mut page = [0u8; 384];
    let len = printing::put_opening(told, &mut page);
    rt.write_all(&page[..len])
}

fn print_page(rt: &impl Print, p: Printing) -> io::Result<()> {
    let mut page = [0u8; 384];
    let len = printing::next_page(p, &mut page).len;
    rt.write_all(&page[..len])
}

fn try_sheet(rt: &impl Print, name: &[u8], text: &[u8]) -> io::Result<()> {
    rt.write_all(b"-- ")?;
    rt.write_all(name)?;
    rt.write_all(b"\n")?;
    let judged = judge::read_sheet(text);
    print_opening(rt, judged.map(|_| ()))?;
    print_page(rt, printing::started(judged))
}

// The index of the next `#`, or the end.
fn mark_from(s: &[u8], at: usize) -> usize
    requires { at ≤ length s.now }
    ensures low { at ≤ result }
    ensures high { result ≤ length s.now }
{
    match s[at..].iter().position(|b| *b == b'#') {
        Some(i) => at + i,
        None => s.len(),
    }
}

// No index is counted: a turn goes on behind the text that it tried.
fn try_all(rt: &impl Print, s: &[u8]) -> io::Result<()> {
    let mut at = 0;
    while at < s.len() {
        let name_end = mark_from(s, at);
        if name_end == s.len() {
            return Ok(());
        }
        let text = name_end + 1;
        let text_end = mark_from(s, text);
        try_sheet(rt, &s[at..name_end], &s[text..text_end])?;
        at = text_end + 2;
    }
    Ok(())
}

fn main(rt: HostRuntime) -> io::Result<()> {
    let mut list = [0u8; 65536];
    let len = input::fill(&mut rt.stdin(), &mut list).len;
    try_all(&rt, &list[..len])
}
