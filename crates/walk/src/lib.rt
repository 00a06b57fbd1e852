// Many steps of a rule in a row, for the benchmarks. Rests on successors. The library for C hosts is wko, not this.
#![tactic(auto)]

ghost use Rattle.std.specs.Prelude.{◌≡◌};
ghost use Rattle.weak_orders.specs.Window.{iter};
ghost use Rattle.successors.specs.NextSymbol.{step_or_stay};
ghost use Rattle.walk.specs.Walk.{walked};

// The window after a number of steps.
fn steps(rule: u8, w: [u8; 16], n: usize, count: u64) -> [u8; 16]
    ensures { result ≡ iter (step_or_stay rule n) count w }
{
    let mut v = w;
    for _ in 0..count {
        let next = successors::step(rule, v, n); // two lines: a call that lays its array in `v` itself gets no proof
        v = next;
    }
    v
}

// The newest symbol after a number of steps from the window in a slice. Refused as a call of the next symbol is.
#[unsafe(no_mangle)]
pub extern "C" fn walk(n: usize, rule: u8, window: &[u8], count: u64) -> u32
    ensures { result ≡ walked n rule window.now count }
{
    let w = weak_orders::load(window, n);
    match successors::judge(rule, w, n) {
        Ok(()) => u32::from(steps(rule, w, n, count)[n - 1]),
        Err(cause) => 256 + u32::from(u8::from(cause)),
    }
}
