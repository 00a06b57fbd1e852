// How many weak orders of n a rule follows by the symbol that they drop, so that the step rotates the window, and how many by another.
// Rests on successors for the steps and on ranking for a(n). The rounds are gone through once; that this counts every weak order, each once, is
// universal_cycle's theorem (proofs/CountedByTour.antt).
#![tactic(auto)]

ghost use Rattle.std.specs.Prelude.{true, cond, not, ◌≡◌, eqb, take, replicate};
ghost use Rattle.weak_orders.specs.Window.{count, range, iter};
ghost use Rattle.successors.specs.NextSymbol.{steppable};
ghost use Rattle.successors.specs.Rules.{rule_of, step};
ghost use Rattle.rotating_steps.specs.Kinds.{rotates};
ghost use Rattle.rotating_steps.specs.Tallied.{tallied};

// The weak orders of n that a step of a rule rotates, and the others.
#[derive(Clone, Copy)]
pub struct Tally {
    pub same: u64,
    pub other: u64,
}

// All ones for rule 1, all zeros for the others.
fn lowest(rule: u8) -> [u8; 16]
    ensures { result ≡ replicate 16 (cond (eqb rule 1) 1 0) }
{
    [u8::from(rule == 1); 16]
}

// Of the windows before each of so many steps from w, those that the step does not rotate: it appends another symbol than the oldest.
fn count_other(rule: u8, w: [u8; 16], n: usize, steps: u64) -> u64
    requires { steppable rule n w ≡ true }
    ensures { result ≡ count (λ k. not (rotates rule (iter (step (rule_of rule)) k (take n w)))) (range steps) }
{
    let last = n - 1;
    let mut v = w;
    let mut total = 0;
    for _ in 0..steps {
        let next = successors::step(rule, v, n);
        total += u64::from(next[last] != v[0]);
        v = next;
    }
    total
}

// Both numbers for the three rules and n from 1 to 8; zeros elsewhere.
pub fn tally_of(rule: u8, n: usize) -> Tally
    ensures { result ≡ tallied rule n }
{
    if !successors::is_rule(rule) || !(1..=8).contains(&n) {
        return Tally { same: 0, other: 0 };
    }
    let all = ranking::weak_order_count(n);
    let other = count_other(rule, lowest(rule), n, all);
    Tally {
        same: all - other,
        other,
    }
}
