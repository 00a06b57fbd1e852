// Prints for each rule how many weak orders of n = 1 to 8 are followed by the symbol that they drop, and how many by another (document 02,
// Paper 7). The numbers are the library's. A write that fails ends the run, and standard error says so.
#![tactic(auto)]

use rotating_steps::Tally;
use std::io;

fn print_line(rt: &impl Print, rule: u8, n: usize) -> io::Result<()> {
    let Tally { same, other } = rotating_steps::tally_of(rule, n);
    println!(rt; "{n} {rule} {same} {other}")
}

fn print_rule(rt: &impl Print, rule: u8) -> io::Result<()> {
    println!(rt; "n rule same other")?;
    for n in 1..=8 {
        print_line(rt, rule, n)?;
    }
    Ok(())
}

// After a gap nothing is printed.
fn print_rules(rt: &impl Print) -> io::Result<()> {
    for rule in 1..=3 {
        print_rule(rt, rule)?;
    }
    Ok(())
}

fn main(rt: HostRuntime) {
    if let Err(error) = print_rules(&rt) {
        failures::say(
            &mut rt.stderr(),
            b"step_kinds: could not write the numbers",
            error,
        );
    }
}
