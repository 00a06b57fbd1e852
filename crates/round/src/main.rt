// Prints the round of a sheet (document 01, "The printed round"), or why the sheet is refused. The sheet is standard input.
// What is printed is the library's, page by page. A read or a write that fails ends the run, and standard error says so; it also says in words
// what is wrong with a refused sheet.
#![tactic(auto)]

use printing::Printing;
use refusals::Cause;
use sheets::judge;
use sheets::judge::Round;
use std::io;
use std::io::IsTerminal;

fn print_opening(rt: &impl Print, told: Result<(), Cause>) -> io::Result<()> {
    let mut page = [0u8; 4096];
    let len = printing::put_opening(told, &mut page);
    rt.write_all(&page[..len])
}

// There are no more pages than lines, since each has a line.
fn print_pages(rt: &impl Print, start: Printing) -> io::Result<()> {
    let mut page = [0u8; 65536];
    let last = start.last;
    let mut p = start;
    for _ in 0..last {
        if p.done == p.last {
            break;
        }
        let filled = printing::next_page(p, &mut page);
        let len = filled.len;
        rt.write_all(&page[..len])?;
        p = filled.printing;
    }
    Ok(())
}

// After a gap nothing is printed.
fn print_round(rt: &impl Print, judged: Result<Round, Cause>) -> io::Result<()> {
    print_opening(rt, judged.map(|_| ()))?;
    print_pages(rt, printing::started(judged))
}

fn main(rt: HostRuntime) {
    if rt.stdin().is_terminal() {
        let _ = eprintln!(rt;
            "round: reading a sheet from standard input, two lines and then the end of input (Ctrl-D)"
        );
    }
    // One byte more than a sheet may have, so that a longer one shows.
    let mut text = [0u8; 129];
    let got = input::fill(&mut rt.stdin(), &mut text);
    if let Some(error) = got.failed {
        failures::say(&mut rt.stderr(), b"round: could not read the sheet", error);
        return;
    }
    let sheet = &text[..got.len];
    if let Err(error) = print_round(&rt, judge::read_sheet(sheet)) {
        failures::say(&mut rt.stderr(), b"round: could not write the round", error);
        return;
    }
    // What standard error does not take is lost: there is nothing left to say it on.
    if let Some(fault) = faults::fault_of(sheet) {
        let _ = eprintln!(rt; "round: {fault}");
    }
}
