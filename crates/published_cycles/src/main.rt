// The cycles that 002 prints for n = 3 and 4 under each of the three rules, gone through step by step from 1..1 or 0..0. A line has the
// oldest symbol of each window until the start window comes again. stdout holds 002's own strings.
#![tactic(auto)]

use std::io;

// One line. No cycle here is longer than 75 symbols, and none has a symbol of two digits.
fn print_cycle(rt: &impl Print, rule: u8, start: [u8; 16], n: usize) -> io::Result<()> {
    let mut w = start;
    for _ in 0..75 {
        let oldest = w[0];
        print!(rt; "{oldest}")?;
        w = successors::step(rule, w, n);
        if w == start {
            return println!(rt);
        }
    }
    Ok(())
}

fn print_cycles(rt: &impl Print, rule: u8, symbol: u8) -> io::Result<()> {
    let same = [symbol; 16];
    for n in 3..=4 {
        print_cycle(rt, rule, weak_orders::load(&same[..n], n), n)?;
    }
    Ok(())
}

fn main(rt: HostRuntime) -> io::Result<()> {
    print_cycles(&rt, 1, 1)?;
    print_cycles(&rt, 2, 0)?;
    print_cycles(&rt, 3, 0)
}
