// The numbers a(n) and L(n, k) of weak orders, and the places of height windows in dictionary order (document 01, "Windows" and
// "Place"). Rests on weak_orders. Completions of a prefix are counted, never listed. Knows no rule and no session; a rank window has
// the place of its heights, and is converted by the caller. `as` narrows a number of places or of heights, which is at most 17.
#![tactic(auto)]

ghost use Rattle.std.specs.Prelude.{cond, true, ◌&&◌, ◌≡◌, ◌+◌, ◌^◌, ◌≤◌, ◌<◌, leb, get_or, take, sum as list_sum};
ghost use Rattle.weak_orders.specs.Converted.{is_height_window};
ghost use Rattle.weak_orders.specs.Window.{padded, bound};
ghost use Rattle.ranking.specs.Answers.{counted, placed, located};
ghost use Rattle.ranking.specs.Counts.{L, a, sum, ways, ways_from, Found};
ghost use Rattle.ranking.specs.Dictionary.{completions_with, place, window_at};
ghost use Rattle.ranking.specs.Tables.{Entries, is_count_table};

use refusals::Cause;

mod tables;

// a(n), the weak orders of n; 0 past 16. Each entry is read by its number: so the compiler knows what is read, keeps it in read-only data and
// builds no list on the stack.
pub fn weak_order_count(n: usize) -> u64
    ensures { result ≡ cond (leb n 16) (a n) 0 }
{
    let counts = tables::totals();
    match n {
        0 => counts[0],
        1 => counts[1],
        2 => counts[2],
        3 => counts[3],
        4 => counts[4],
        5 => counts[5],
        6 => counts[6],
        7 => counts[7],
        8 => counts[8],
        9 => counts[9],
        10 => counts[10],
        11 => counts[11],
        12 => counts[12],
        13 => counts[13],
        14 => counts[14],
        15 => counts[15],
        16 => counts[16],
        _ => 0,
    }
}

// L(n, k), the weak orders of n with exactly k different symbols; 0 outside the table.
pub fn weak_order_count_with(n: usize, k: usize) -> u64
    ensures { result ≡ cond (leb n 16 && leb k 16) (L n k) 0 }
{
    if 16 < n || 16 < k {
        return 0;
    }
    let counts = tables::by_symbols();
    counts[n * 17 + k]
}

// The ways to fill rest places with the present heights, none being missing.
fn none_missing(rest: u64, present: u64) -> u64
    requires { rest + present ≤ 17 }
    ensures { result ≡ ways rest 0 present }
{
    present.pow(rest as u32)
}

// The ways where one height is missing: the fillings by one height more, without those that do not use it.
fn one_missing(rest: u64, present: u64) -> u64
    requires { rest + present ≤ 16 }
    ensures { result ≡ ways rest 1 present }
{
    none_missing(rest, present + 1) - none_missing(rest, present)
}

// The ways to fill rest places where each of the missing heights has to stand in one, and any of the present may. With two missing they
// are a difference, as with one. With more, places are added one by one: each takes a missing height, which is then present where the others
// are filled, or a present one. Fewer places than missing heights have no way, and none is tried.
fn ways(rest: u64, missing: u64, present: u64) -> u64
    requires { rest + present < 16 }
    ensures { result ≡ ways rest missing present }
{
    if missing == 0 {
        return none_missing(rest, present);
    }
    if missing == 1 {
        return one_missing(rest, present);
    }
    if missing == 2 {
        return one_missing(rest, present + 1) - one_missing(rest, present);
    }
    let mut total = 0;
    for others in missing - 1..rest {
        total = missing * ways(others, missing - 1, present + 1) + present * total;
    }
    total
}

// L(n, m) + … + L(n, 16) for each m up to 16, read off the table: the ways to fill n places with m or more missing heights, none being
// present.
fn row_sums_of(counts: [u64; 289], n: usize) -> [u64; 17]
    requires { (n ≤ 16) × (is_count_table counts ≡ true) }
    ensures { Entries result (λ m. ways_from n m 0) 17 }
{
    let mut sums = [0u64; 17];
    let mut total = 0;
    for m in (0..17).rev() {
        total += counts[n * 17 + m];
        sums[m] = total;
    }
    sums
}

// The same, each row by its number: so the compiler knows what is read, keeps it in read-only data and builds no table on the stack.
fn row_sums(n: usize) -> [u64; 17]
    requires { n ≤ 16 }
    ensures { Entries result (λ m. ways_from n m 0) 17 }
{
    let counts = tables::by_symbols();
    match n {
        0 => row_sums_of(counts, 0),
        1 => row_sums_of(counts, 1),
        2 => row_sums_of(counts, 2),
        3 => row_sums_of(counts, 3),
        4 => row_sums_of(counts, 4),
        5 => row_sums_of(counts, 5),
        6 => row_sums_of(counts, 6),
        7 => row_sums_of(counts, 7),
        8 => row_sums_of(counts, 8),
        9 => row_sums_of(counts, 9),
        10 => row_sums_of(counts, 10),
        11 => row_sums_of(counts, 11),
        12 => row_sums_of(counts, 12),
        13 => row_sums_of(counts, 13),
        14 => row_sums_of(counts, 14),
        15 => row_sums_of(counts, 15),
        _ => row_sums_of(counts, 16),
    }
}

// The same of rest places, any height present being allowed. No m above rest finds room. The numbers are put where the caller keeps them:
// as a result they would take their place on the stack twice while `ways` runs.
fn ways_from(rest: u64, present: u64, totals: &mut [u64; 17])
    requires { rest + present < 16 }
    ensures { Entries totals.new (λ m. ways_from rest m present) 17 }
{
    if present == 0 {
        *totals = row_sums(rest as usize);
        return;
    }
    *totals = [0u64; 17];
    let mut total = 0;
    for m in (0..rest + 1).rev() {
        total += ways(rest, m, present);
        totals[m as usize] = total;
    }
}

// One more than the largest of the first i symbols; 0 where there is none.
fn bound(w: [u8; 16], i: usize) -> usize
    requires { i ≤ 16 }
    ensures { result ≡ bound (take i w) }
{
    let mut b = 0;
    for &x in &w[..i] {
        b = b.max(usize::from(x) + 1);
    }
    b
}

// For each symbol v below n: the completions of the first i symbols of w with v behind them. Where v is not among them it is missing no
// longer and one more is present; the ways are those in which it occurs again and those in which it does not.
fn continuations(w: [u8; 16], n: usize, i: usize, counts: &mut [u64; 16])
    requires { (i < n) × (n ≤ 16) × (bound (take i w) ≤ n) }
    ensures { Entries counts.new (completions_with n (take i w)) n }
{
    let present = weak_orders::different(w, i) as usize;
    let seen = weak_orders::counts(w, i);
    let top = bound(w, i);
    let mut totals = [0u64; 17];
    ways_from((n - 1 - i) as u64, present as u64, &mut totals);
    *counts = [0u64; 16];
    for v in 0..n {
        let missing = top.max(v + 1) - present;
        counts[v] = if seen[v] == 0 {
            totals[missing] + totals[missing - 1]
        } else {
            totals[missing]
        };
    }
}

// The counts added up.
fn sum_of(counts: &[u64]) -> u64
    requires { list_sum counts.now < 2 ^ 63 }
    ensures { result ≡ list_sum counts.now }
{
    counts.iter().sum()
}

// The place of a height window: for each symbol, the completions of those before it with a smaller one behind.
fn place_of(w: [u8; 16], n: usize) -> u64
    requires { is_height_window n w ≡ true }
    ensures { result ≡ place (take n w) }
{
    let mut counts = [0u64; 16];
    let mut before = 0;
    for i in 0..n {
        continuations(w, n, i, &mut counts);
        before += sum_of(&counts[..usize::from(w[i])]);
    }
    before
}

// A symbol, and how many of the windows that have it stand before the one that is looked for.
#[derive(Clone, Copy)]
struct Next {
    symbol: u8,
    left: u64,
}

// The symbol of the window at the place left, where counts says how many windows go on with each symbol below n.
fn symbol_at(counts: &[u64; 16], n: usize, left: u64) -> Next
    requires { (n ≤ 16) × (left < sum (λ u. get_or counts.now u 0) n) }
    ensures { (result.symbol < n) × Found (λ u. get_or counts.now u 0) left result.symbol result.left }
{
    // No `for` over the counts: that the search ends among the first n follows from left, and a `for` would need an answer for its own end.
    let mut rest = left;
    let mut v: usize = 0;
    while counts[v] <= rest {
        rest -= counts[v];
        v += 1;
    }
    Next {
        symbol: v as u8,
        left: rest,
    }
}

// The window at a place, symbol by symbol.
fn window_of(n: usize, place: u64) -> [u8; 16]
    requires { (n ≤ 16) × (place < a n) }
    ensures { result ≡ padded (window_at n place) }
{
    let mut counts = [0u64; 16];
    let mut window = [0u8; 16];
    let mut left = place;
    for i in 0..n {
        continuations(window, n, i, &mut counts);
        let next = symbol_at(&counts, n, left);
        window[i] = next.symbol;
        left = next.left;
    }
    window
}

// How many weak orders of n there are.
pub fn count(n: usize) -> Result<u64, Cause>
    ensures { result ≡ counted n }
{
    if !weak_orders::is_length(n) {
        return Err(Cause::WindowLength);
    }
    Ok(weak_order_count(n))
}

// The place of the first n symbols of w in dictionary order, where they are a height window.
pub fn place(w: [u8; 16], n: usize) -> Result<u64, Cause>
    ensures { result ≡ placed n (take n w) }
{
    weak_orders::judge(n, weak_orders::is_height(w, n))?;
    Ok(place_of(w, n))
}

// The height window of n at a place.
pub fn window_at(n: usize, place: u64) -> Result<[u8; 16], Cause>
    ensures { result ≡ located n place }
{
    if count(n)? <= place {
        return Err(Cause::NoSuchPlace);
    }
    Ok(window_of(n, place))
}
