// Rules 2 and 3, on windows in height form. They ask other questions in another order, so neither is the other with a constant changed.
ghost use Rattle.std.specs.List.{list_all, list_any, slice_range, range_with_len};
ghost use Rattle.std.specs.Prelude.{true, ◌∷◌, ◌≡◌, ◌==◌, ◌-◌, ◌≤◌, leb, take};
ghost use Rattle.weak_orders.specs.Window.{is_height};
ghost use Rattle.successors.specs.Rules.{in_r, rule2, rule3};

// A window of n in height form. The tests of its symbols are inlined, since a call copies it.
#[derive(Clone, Copy)]
pub(crate) struct HeightWindow {
    pub(crate) w: [u8; 16],
    pub(crate) n: usize,
    ghost some: { 1 ≤ n },
    ghost most: { n ≤ 16 },
    ghost form: { is_height (take n w) ≡ true },
}

impl HeightWindow {
    // No symbol behind the first is larger than x.
    #[inline(always)]
    fn none_above(self, x: u8) -> bool
        ensures { result ≡ list_all (λ v. leb v x) (slice_range self.w 1 self.n) }
    {
        self.w[1..self.n].iter().all(|&v| v <= x)
    }

    // The symbol v occurs behind the first. `contains` reads groups of bytes through buffers of its own, which took 600 bytes of stack.
    #[inline(always)]
    fn occurs_behind(self, v: u8) -> bool
        ensures { result ≡ list_any (λ y. y == v) (slice_range self.w 1 self.n) }
    {
        self.w[1..self.n].iter().any(|&y| y == v)
    }

    // Every symbol from a up to x, x not included, occurs behind the first.
    #[inline(always)]
    fn all_behind(self, a: u8, x: u8) -> bool
        ensures { result ≡ list_all (λ v. list_any (λ y. y == v) (slice_range self.w 1 self.n)) (range_with_len a (x - a)) }
    {
        (a..x).all(|v| self.occurs_behind(v))
    }

    // The window with x for its first symbol is in R. The symbols below the window's own first symbol need no test: in a window in height
    // form they all occur behind it.
    #[tactic(auto, using(crate::proofs::HeightWindows::in_r_cases))]
    fn in_r(self, x: u8) -> bool
        ensures { result ≡ in_r (x ∷ slice_range self.w 1 self.n) }
    {
        if x == 0 || !self.none_above(x) || !self.all_behind(self.w[0], x) {
            return false;
        }
        let mut v = self.w;
        v[0] = x;
        rotations::own_standing(v, self.n).is_some()
    }

    // The symbol that follows by rule 2. Where a symbol behind is larger than w1 + 1, no first symbol up to w1 + 1 puts the window in R:
    // most windows end there.
    #[tactic(auto, using(crate::proofs::HeightWindows::rule2_cases))]
    pub(crate) fn successor2(self) -> u8
        ensures { result ≡ rule2 (take self.n self.w) }
    {
        let a = self.w[0];
        let up = a + 1;
        if !self.none_above(up) {
            return a;
        }
        if self.in_r(up) {
            return up;
        }
        if !self.in_r(a) {
            return a;
        }
        let down = a - 1;
        if self.in_r(down) {
            return down - 1;
        }
        down
    }

    // The symbol that follows by rule 3, with the same first test.
    #[tactic(auto, using(crate::proofs::HeightWindows::rule3_cases))]
    pub(crate) fn successor3(self) -> u8
        ensures { result ≡ rule3 (take self.n self.w) }
    {
        let a = self.w[0];
        let up = a + 1;
        let top = a + 2;
        if !self.none_above(up) {
            return a;
        }
        if self.in_r(a) {
            return a - 1;
        }
        if !self.in_r(up) {
            return a;
        }
        if self.in_r(top) {
            return top;
        }
        up
    }
}
