// Patterns of a window in height form, with open places, and the first weak order that agrees with one (document 02, Papers 1 and 8).
// Rests on weak_orders, and in the definitions on ranking for the list of all weak orders and on rotations for dictionary order. Knows no rule
// and no session.
// A pattern is an array of 16 by value with n beside, as a window is; the bytes past n are not looked at. `as` narrows a height, which is at most 16.
#![tactic(auto)]

ghost use Rattle.std.specs.Prelude.{true, ◌≡◌, ◌≤◌, ◌<◌, leb, get_or, take, length, count_by, position, ◌==◌, Err, IfOk, IfErr};
ghost use Rattle.std.specs.List.{list_all};
ghost use Rattle.weak_orders.specs.Window.{bound, padded};
ghost use Rattle.filling.specs.Answers.{judged_pattern, fill_answer};
ghost use Rattle.filling.specs.Choice.{least_missing, choice, height_for};
ghost use Rattle.filling.specs.Earliest.{earliest};
ghost use Rattle.filling.specs.Pattern.{is_allowed, is_pattern, fillable, fixed, open_places, missing, ByTable};

use refusals::Cause;

// The byte of an open place.
const OPEN: u8 = 255;

// A byte that a pattern of n may have.
fn is_allowed(b: u8, n: usize) -> bool
    ensures { result ≡ is_allowed n b }
{
    b == OPEN || usize::from(b) < n
}

fn all_allowed(bytes: [u8; 16], n: usize) -> bool
    requires { n ≤ 16 }
    ensures { result ≡ list_all (is_allowed n) (take n bytes) }
{
    bytes[..n].iter().all(|&b| is_allowed(b, n))
}

// One more than the largest height that the table has; 0 where it has none.
fn fixed_bound(t: [u8; 18], n: usize) -> usize
    requires { n ≤ 16 }
    ensures { (result ≤ n) × ByTable n t (λ p. bound (fixed p)) result }
{
    for v in (0..n).rev() {
        if t[v] != 0 {
            return v + 1;
        }
    }
    0
}

// How many symbols are counted 0 times. Added up and not filtered: a filter jumps at each entry, which took half as long again.
fn absent(counts: &[u8]) -> usize
    requires { length counts.now ≤ 16 }
    ensures { result ≡ count_by (λ c. c == 0) counts.now }
{
    counts.iter().map(|&c| usize::from(c == 0)).sum()
}

// How many heights below the largest that is fixed are missing.
fn missing(t: [u8; 18], n: usize) -> usize
    requires { n ≤ 16 }
    ensures { ByTable n t missing result }
{
    absent(&t[..fixed_bound(t, n)])
}

// The first symbol that is counted 0 times.
fn first_absent(counts: &[u8]) -> Option<usize>
    ensures { result ≡ position (λ c. c == 0) counts.now }
{
    counts.iter().position(|&c| c == 0)
}

// The least height that is not fixed.
fn least_missing(t: [u8; 18], n: usize) -> u8
    requires { n ≤ 16 }
    ensures { ByTable n t (λ p. least_missing (fixed p)) result }
{
    first_absent(&t[..n]).unwrap_or(n) as u8
}

// The first n bytes of an array, all of them allowed: open, or a height below n.
#[derive(Clone, Copy)]
struct Pattern {
    bytes: [u8; 16],
    n: usize,
    ghost some: { 1 ≤ n },
    ghost short: { n ≤ 16 },
    ghost allowed: { is_pattern n (take n bytes) ≡ true },
}

impl Pattern {
    // Tests 6 and 8.
    fn of(bytes: [u8; 16], n: usize) -> Result<Pattern, Cause>
        ensures held { IfOk result (λ p. (p.bytes ≡ bytes) × (p.n ≡ n)) }
        ensures refused { IfErr result (λ c. judged_pattern n (take n bytes) ≡ Err c) }
    {
        if !weak_orders::is_length(n) {
            return Err(Cause::WindowLength);
        }
        if !all_allowed(bytes, n) {
            return Err(Cause::NotWeakOrder);
        }
        Ok(Pattern { bytes, n })
    }

    // There are at least as many open places, which the last entry of the table counts, as missing heights.
    fn has_room(self) -> bool
        ensures { result ≡ leb (missing (take self.n self.bytes)) (open_places (take self.n self.bytes)) }
    {
        let t = weak_orders::counts(self.bytes, self.n);
        missing(t, self.n) <= usize::from(t[17])
    }

    // The height for the first open place: 0 while there are more of them than missing heights, and then the least missing height.
    fn choice(self) -> u8
        ensures { result ≡ choice (take self.n self.bytes) }
    {
        let t = weak_orders::counts(self.bytes, self.n);
        if missing(t, self.n) < usize::from(t[17]) {
            return 0;
        }
        least_missing(t, self.n)
    }

    // The height for the place i: the one that is fixed there, or where it is open the choice.
    fn height_for(self, i: usize) -> u8
        requires { i < self.n }
        ensures { result ≡ height_for (take self.n self.bytes) (get_or self.bytes i 0) }
    {
        let b = self.bytes[i];
        if b != OPEN {
            return b;
        }
        self.choice()
    }

    // The open places filled from the left. The bytes past n are the pattern's; v has zeros there.
    fn earliest(mut self) -> [u8; 16]
        requires { fillable self.n (take self.n self.bytes) ≡ true }
        ensures { result ≡ padded (earliest self.n (take self.n self.bytes)) }
    {
        let mut v = [0u8; 16];
        for i in 0..self.n {
            let h = self.height_for(i);
            self.bytes[i] = h;
            v[i] = h;
        }
        v
    }
}

// The first weak order of n in height form, in dictionary order, that agrees with the first n bytes of the pattern wherever they are not open.
pub fn fill(pattern: [u8; 16], n: usize) -> Result<[u8; 16], Cause>
    ensures { result ≡ fill_answer n (take n pattern) }
{
    let p = Pattern::of(pattern, n)?;
    if !p.has_room() {
        return Err(Cause::NoFilling);
    }
    Ok(p.earliest())
}
