// Weak orders of n things, ties included: windows of n symbols, their rank form and their height form.
// Rests on refusals for their causes. Knows no rule and no session.
// A window is an array of 16 by value with n beside; the symbols past n are not looked at, and are 0 in every window made here.
// `as` narrows a count of places, which is at most 16.
#![tactic(auto)]

ghost use Rattle.std.specs.Prelude.{true, cond, ◌≡◌, min, suc, ◌≤◌, ◌<◌, ◌%◌, ◌^◌, ltb, take};
ghost use Rattle.std.specs.Int.Count.{ones};
ghost use Rattle.weak_orders.specs.Window.{below, height, heights, ranks, is_length, padded, loaded, shifted};
ghost use Rattle.weak_orders.specs.Tables.{tally, GivesNum, is_rank_table, bit_of, bits_of};
ghost use Rattle.weak_orders.specs.Converted.{is_rank_window, is_height_window, judged_by, rank_to_height, height_to_rank};

use refusals::Cause;

// A symbol's place in a table of counts: its own up to 16, and 17 for all larger ones.
fn slot(v: u8) -> usize
    ensures { result ≡ min v 17 }
{
    usize::from(v.min(17))
}

// A window has at most 16 symbols, so no more are looked at.
pub fn capped(n: usize) -> usize
    ensures { result ≡ min n 16 }
{
    n.min(16)
}

// How often each symbol up to 16 occurs among the first n; the last entry counts the larger ones.
pub fn counts(w: [u8; 16], n: usize) -> [u8; 18]
    ensures value { result ≡ tally (take n w) }
    ensures num { GivesNum (take n w) result }
{
    let mut t = [0u8; 18];
    for &v in &w[..capped(n)] {
        t[slot(v)] += 1;
    }
    t
}

// Test 6 of document 01: n is 1 to 16.
#[tactic(auto, unfolding(crate::specs::Window::is_length))]
pub fn is_length(n: usize) -> bool
    ensures { result ≡ is_length n }
{
    (1..=16).contains(&n)
}

// By its table of counts, a window of n is in rank form: each symbol that it holds is one more than the number of places below it, and
// none is larger than n. The two tests of an entry are joined by `&`, since which entries are 0 is hard to foresee.
#[tactic(auto, using(crate::proofs::FormTests::sized))]
pub fn is_rank_table(t: [u8; 18], n: usize) -> bool
    ensures { result ≡ is_rank_table n t }
{
    if !is_length(n) {
        return false;
    }
    let mut seen = 0;
    for (v, &places) in t[..=n].iter().enumerate() {
        if (places != 0) & (v != seen + 1) {
            return false;
        }
        seen += usize::from(places);
    }
    seen == n
}

// The first n symbols are a weak order of n in rank form.
pub fn is_rank(w: [u8; 16], n: usize) -> bool
    ensures { result ≡ is_rank_window n w }
{
    is_rank_table(counts(w, n), n)
}

// The first n symbols are a weak order of n in height form: none is 31 or more, and as bits they have no gap, so that adding 1 clears
// them all.
pub fn is_height(w: [u8; 16], n: usize) -> bool
    ensures { result ≡ is_height_window n w }
{
    if !is_length(n) {
        return false;
    }
    let bits = present(w, n);
    bits < 1 << 31 && bits & (bits + 1) == 0
}

// A slice of n bytes as a window, with zeros behind. One that is not n long gives sixteen 255s, which are in neither form: no symbol there
// is above 16.
pub fn load(s: &[u8], n: usize) -> [u8; 16]
    ensures { result ≡ loaded n s.now }
{
    if s.len() != n {
        return [255u8; 16];
    }
    let end = capped(n);
    let mut v = [0u8; 16];
    v[..end].copy_from_slice(&s[..end]);
    v
}

// The oldest of n symbols dropped and s appended, in a new array. Where n is no window's length, the array as it was.
#[tactic(auto, using(crate::proofs::FormTests::sized))]
pub fn shift(w: [u8; 16], n: usize, s: u8) -> [u8; 16]
    ensures { result ≡ cond (is_length n) (padded (shifted (take n w) s)) w }
{
    if !is_length(n) {
        return w;
    }
    let mut v = [0u8; 16];
    v[..n - 1].copy_from_slice(&w[1..n]);
    v[n - 1] = s;
    v
}

// A symbol as a bit; all from 31 on share the bit 31.
fn bit_of(v: u8) -> u32
    ensures { result ≡ bit_of v }
{
    1u32 << v.min(31)
}

// The symbols among the first n, each a bit.
pub fn present(w: [u8; 16], n: usize) -> u32
    ensures { result ≡ bits_of (take n w) }
{
    let mut bits = 0;
    for &symbol in &w[..capped(n)] {
        bits |= bit_of(symbol);
    }
    bits
}

// How many different symbols below 31 are among the first n: all of them, in either form.
pub fn different(w: [u8; 16], n: usize) -> u32
    ensures { result ≡ height (take n w) 31 }
{
    (present(w, n) % (1 << 31)).count_ones()
}

// The height of a symbol: how many of the symbols present are smaller.
fn height_of(bits: u32, v: u8) -> u8
    requires { v < 32 }
    ensures { result ≡ ones (bits % 2 ^ v) }
{
    (bits % (1 << v)).count_ones() as u8
}

fn heights_of(w: [u8; 16], n: usize) -> [u8; 16]
    requires { is_rank_window n w ≡ true }
    ensures { result ≡ padded (heights (take n w)) }
{
    let bits = present(w, n);
    let mut v = [0u8; 16];
    for i in 0..n {
        v[i] = height_of(bits, w[i]);
    }
    v
}

// The rank of a symbol: 1 plus the number of places that hold a smaller one.
fn rank_of(w: [u8; 16], n: usize, v: u8) -> u8
    requires { n ≤ 16 }
    ensures { result ≡ suc (below (take n w) v) }
{
    // `.filter(..).count()` here takes five times as long
    let mut rank = 1;
    for &x in &w[..n] {
        rank += u8::from(x < v);
    }
    rank
}

fn ranks_of(w: [u8; 16], n: usize) -> [u8; 16]
    requires { n ≤ 16 }
    ensures { result ≡ padded (ranks (take n w)) }
{
    let mut v = [0u8; 16];
    for i in 0..n {
        v[i] = rank_of(w, n, w[i]);
    }
    v
}

// Tests 6 and 8 of a window of n, where `formed` says whether it is in the form that is asked for.
#[tactic(auto, unfolding(crate::specs::Converted::judged_by))]
pub fn judge(n: usize, formed: bool) -> Result<(), Cause>
    ensures { result ≡ judged_by n formed }
{
    if !is_length(n) {
        return Err(Cause::WindowLength);
    }
    if !formed {
        return Err(Cause::NotWeakOrder);
    }
    Ok(())
}

// From rank form to height form. Not one function for both ways: each form has its own test and its own numbers, and only they differ.
pub fn rank_to_height(w: [u8; 16], n: usize) -> Result<[u8; 16], Cause>
    ensures { result ≡ rank_to_height n (take n w) }
{
    judge(n, is_rank(w, n))?;
    Ok(heights_of(w, n))
}

// From height form to rank form.
pub fn height_to_rank(w: [u8; 16], n: usize) -> Result<[u8; 16], Cause>
    ensures { result ≡ height_to_rank n (take n w) }
{
    judge(n, is_height(w, n))?;
    Ok(ranks_of(w, n))
}
