// Rule 1, on windows in rank form. The table of counts is filled once a window, by `next_in_ranks`, which tests the form by it and hands it on
// beside the window. Every other function here reads the table, and none counts again.
ghost use Rattle.std.specs.Prelude.{true, not, ◌&&◌, ◌||◌, ◌==◌, ◌∷◌, ◌≡◌, ℕ, ◌≤◌, ◌<◌, take, drop, get_or, slice_index};
ghost use Rattle.std.specs.List.{list_all, slice_range};
ghost use Rattle.weak_orders.specs.Tables.{tally};
ghost use Rattle.weak_orders.specs.Window.{is_rank};
ghost use Rattle.rotations.specs.Rotation.{start};
ghost use Rattle.successors.specs.ByTable.{passes_by, scan_by, largest_by, RepeatBeforeOne};
ghost use Rattle.successors.specs.NextSymbol.{next_symbol};
ghost use Rattle.successors.specs.Rules.{is_plain, largest_below, case3, case4, rule1};

use refusals::Cause;

// What cases 3 and 4 ask of a symbol v that occurs so often: it differs from p, and is 1 or occurs once.
fn passes(v: u8, often: u8, p: u8) -> bool
    ensures { result ≡ (not (v == p) && (v == 1 || often == 1)) }
{
    v != p && (v == 1 || often == 1)
}

// A window of n in rank form, and how often each symbol occurs in it. It goes by value, as every window does; most methods are inlined, since a
// call copies it.
#[derive(Clone, Copy)]
struct RankWindow {
    w: [u8; 16],
    n: usize,
    t: [u8; 18],
    ghost some: { 1 ≤ n },
    ghost most: { n ≤ 16 },
    ghost form: { is_rank (take n w) ≡ true },
    ghost low: { (k : ℕ) → k < n → slice_index w k ≤ 16 },
    ghost counted: { t ≡ tally (take n w) },
}

impl RankWindow {
    // Each symbol from index a up to b passes.
    #[inline(always)]
    #[tactic(auto, unfolding(crate::specs::ByTable::passes_by, crate::specs::ByTable::single_by))]
    fn all_pass(self, a: usize, b: usize, p: u8) -> bool
        requires { (a ≤ b) × (b ≤ self.n) }
        ensures { result ≡ list_all (passes_by self.t p) (slice_range self.w a b) }
    {
        self.w[a..b]
            .iter()
            .all(|&v| passes(v, self.t[usize::from(v)], p))
    }

    // Behind the first symbol and before any 1 stands one that does not pass.
    #[inline(always)]
    fn repeat_before_one(self, p: u8) -> bool
        ensures { result ≡ true → RepeatBeforeOne (passes_by self.t p) self.n self.w }
    {
        for &v in &self.w[1..self.n] {
            if v == 1 {
                return false;
            }
            if !passes(v, self.t[usize::from(v)], p) {
                return true;
            }
        }
        false
    }

    // The scan up to `start` of the window with x first: each symbol behind the first passes. The least rotation of a rank window starts with
    // a 1, so most windows need no search for it.
    #[tactic(auto, using(crate::proofs::RankWindows::start_rules))]
    fn single_before_start(self, x: u8, p: u8) -> bool
        requires { (1 < x) × (is_rank (x ∷ drop 1 (take self.n self.w)) ≡ true) }
        ensures { result ≡ scan_by (start (x ∷ drop 1 (take self.n self.w))) self.t (take self.n self.w) p }
    {
        if self.repeat_before_one(p) {
            return false;
        }
        let mut v = self.w;
        v[0] = x;
        let least = rotations::least_rotation(v, self.n);
        self.all_pass(1, least.start - 1, p)
    }

    // The largest symbol below v, or 0.
    #[inline(always)]
    fn largest_below(self, v: u8) -> u8
        requires { v ≤ 16 }
        ensures { result ≡ largest_by self.t v }
    {
        for p in (0..v).rev() {
            if self.t[usize::from(p)] != 0 {
                return p;
            }
        }
        0
    }

    // Case 3; `plain` says whether the window is plain. Its scan excludes no p: it is handed 0, which no rank window holds.
    #[inline(always)]
    #[tactic(auto, using(crate::proofs::RankWindows::case3_rules))]
    fn is_case3(self, plain: bool) -> bool
        requires { plain ≡ is_plain (take self.n self.w) }
        ensures { result ≡ case3 (get_or self.w 0 0) (drop 1 (take self.n self.w)) }
    {
        let a = self.w[0];
        if plain || a <= 1 || self.t[usize::from(a)] <= 1 {
            return false;
        }
        self.single_before_start(a, 0)
    }

    // Case 4 for p, the largest symbol below the first. The rotation is that of the window with p first, which is a rank window too.
    #[inline(always)]
    #[tactic(auto, using(crate::proofs::RankWindows::case4_rules))]
    fn is_case4(self, p: u8) -> bool
        requires { p ≡ largest_below (take self.n self.w) (get_or self.w 0 0) }
        ensures { result ≡ case4 (get_or self.w 0 0) (drop 1 (take self.n self.w)) p }
    {
        let a = self.w[0];
        if a <= 1 || self.t[usize::from(a)] != 1 || p == 1 {
            return false;
        }
        self.single_before_start(p, p)
    }

    // The symbol that follows: the first case that applies.
    #[inline(always)]
    #[tactic(auto, using(crate::proofs::RankWindows::rule1_rules))]
    fn successor1(self) -> u8
        ensures { result ≡ rule1 (take self.n self.w) }
    {
        let plain = self.all_pass(0, self.n, 0);
        let ones = self.t[1];
        let a = self.w[0];
        if plain && a == ones + 1 {
            return 1;
        }
        if plain && a == 1 {
            return ones;
        }
        if self.is_case3(plain) {
            return a + self.t[usize::from(a)] - 1;
        }
        let p = self.largest_below(a);
        if self.is_case4(p) { p } else { a }
    }
}

// The symbol that follows a window by rule 1, or why there is none: tests 6 and 8, as the number 1 passes test 7.
#[tactic(auto, using(crate::proofs::Steppable::judged_by_table, crate::proofs::RuleNumbers::is_rule1), unfolding(crate::specs::NextSymbol::next_symbol, crate::specs::NextSymbol::answer_by))]
pub(crate) fn next_in_ranks(w: [u8; 16], n: usize) -> Result<u8, Cause>
    ensures { result ≡ next_symbol 1 n (take n w) }
{
    let t = weak_orders::counts(w, n);
    weak_orders::judge(n, weak_orders::is_rank_table(t, n))?;
    let window = RankWindow { w, n, t };
    Ok(window.successor1())
}
