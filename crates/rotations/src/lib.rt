// The rotations of a window: the turn back by one; where the least one in dictionary order starts, and where the greatest does; how many are
// different.
// Rests on weak_orders for windows, and knows no rule.
// A window is an array of 16 by value with n beside; the symbols past n are not looked at.
#![tactic(auto)]

ghost use Rattle.std.specs.Prelude.{cond, List, ◌≡◌, ◌≢◌, ℕ, ◌≤◌, ◌<◌, length, take, get_or};
ghost use Rattle.std.specs.Ordering.{is_gt};
ghost use Rattle.weak_orders.specs.Window.{padded};
ghost use Rattle.rotations.specs.Order.{compared};
ghost use Rattle.rotations.specs.Rotation.{rotation, turned_back, least_rotation, greatest_rotation, own_standing};

use std::cmp::Ordering;

// Where a window of n has the k-th symbol of its rotation from index i, all counted from 0.
fn cyclic(n: usize, i: usize, k: usize) -> usize
    requires { (n ≤ 16) × (i < n) × (k < n) }
    ensures { (result < n) × ((w : List ℕ) → n ≤ length w → get_or w result 0 ≡ get_or (rotation (take n w) i) k 0) }
{
    let j = i + k;
    if j < n {
        return j;
    }
    j - n
}

// The window turned back by one, in a new array: its newest symbol in front of the others, and zeros behind. No more than 16 symbols are looked at.
pub fn turned_back(w: [u8; 16], n: usize) -> [u8; 16]
    ensures { result ≡ padded (turned_back (take n w)) }
{
    let end = weak_orders::capped(n);
    let mut v = [0u8; 16];
    if end > 0 {
        v[0] = w[end - 1];
        v[1..end].copy_from_slice(&w[..end - 1]);
    }
    v
}

// Where the rotation from index i stands beside the one from j.
fn compare(w: [u8; 16], n: usize, i: usize, j: usize) -> Ordering
    requires { (n ≤ 16) × (i < n) × (j < n) }
    ensures { result ≡ compared (rotation (take n w) i) (rotation (take n w) j) }
{
    for k in 0..n {
        let x = w[cyclic(n, i, k)];
        let y = w[cyclic(n, j, k)];
        if x < y {
            return Ordering::Less;
        }
        if y < x {
            return Ordering::Greater;
        }
    }
    Ordering::Equal // no symbol differs
}

// Where the least or the greatest rotation starts, counted from 1, the least such index where it starts at several; and the period, how many
// different rotations there are.
#[derive(Clone, Copy)]
pub struct Rotation {
    pub start: usize,
    pub period: usize,
}

// Goes through the rotations and keeps the first index of the best so far, where a better one stands on that side of it: before it, to find
// the least, or behind it, to find the greatest. Where that rotation comes again, those behind are copies of what was compared, and the
// distance is the period; where it does not, all are different.
fn search(w: [u8; 16], n: usize, better: Ordering) -> Rotation
    requires { better ≢ Ordering.Equal }
    ensures { result ≡ cond (is_gt better) (greatest_rotation (take n w)) (least_rotation (take n w)) }
{
    let end = weak_orders::capped(n);
    let mut best = 0;
    for j in 1..end {
        let place = compare(w, end, j, best);
        if place == Ordering::Equal {
            return Rotation {
                start: best + 1,
                period: j - best,
            };
        }
        if place == better {
            best = j;
        }
    }
    Rotation {
        start: best + 1,
        period: end,
    }
}

// Two names over one search. Of the least rotation. No more than 16 symbols are looked at, and of none the start is 1 and the period 0; so too of the greatest.
pub fn least_rotation(w: [u8; 16], n: usize) -> Rotation
    ensures { result ≡ least_rotation (take n w) }
{
    search(w, n, Ordering::Less)
}

pub fn greatest_rotation(w: [u8; 16], n: usize) -> Rotation
    ensures { result ≡ greatest_rotation (take n w) }
{
    search(w, n, Ordering::Greater)
}

// The period of a window that is its own greatest rotation, so that this starts at 1. Where it does not, no search for where it starts is
// needed: the first rotation that is greater than the window decides.
pub fn own_standing(w: [u8; 16], n: usize) -> Option<usize>
    ensures { result ≡ own_standing (take n w) }
{
    let end = weak_orders::capped(n);
    for i in 1..end {
        match compare(w, end, 0, i) {
            Ordering::Less => return None,
            Ordering::Equal => return Some(i),
            Ordering::Greater => {}
        }
    }
    Some(end)
}
