// The three successor rules of 002: the symbol that follows a window, one step, and the step back; and the rotation that a rule compares with.
// Rests on weak_orders for windows, their forms and their tables of counts, on rotations for the least and the greatest one and for the turn
// back, and on refusals for causes. That the steps of a rule go through every weak order once is shown in universal_cycle; this crate knows no
// session.
// A window passes by value, as an array of 16 with n beside.
#![tactic(auto)]

mod height_rules;
mod rank_rule;

ghost use Rattle.std.specs.Prelude.{◌&&◌, ◌≡◌, take};
ghost use Rattle.weak_orders.specs.Window.{is_length};
ghost use Rattle.successors.specs.NextSymbol.{steppable, judged, next_symbol, step_or_stay};
ghost use Rattle.successors.specs.RotationUnder.{rotation_answer};
ghost use Rattle.successors.specs.Rules.{in_form, is_rule};
ghost use Rattle.successors.specs.StepBack.{undoing, previous_symbol};

use height_rules::HeightWindow;
use rank_rule::next_in_ranks;
use refusals::Cause;
use rotations::Rotation;

// The first n symbols are a weak order of n in the rule's form: ranks for rule 1, heights for the others.
#[tactic(auto, unfolding(crate::specs::Rules::in_form, weak_orders::specs::Converted::is_rank_window, weak_orders::specs::Converted::is_height_window))]
pub fn in_form(rule: u8, w: [u8; 16], n: usize) -> bool
    ensures { result ≡ (is_length n && in_form rule (take n w)) }
{
    if rule == 1 {
        return weak_orders::is_rank(w, n);
    }
    weak_orders::is_height(w, n)
}

// The rules are 1, 2 and 3. A rule is a number and no enum, since C and frames may carry any, and each is answered.
#[tactic(auto, unfolding(crate::specs::Rules::is_rule))]
pub fn is_rule(rule: u8) -> bool
    ensures { result ≡ is_rule rule }
{
    (1..=3).contains(&rule)
}

// There is such a rule, and the window is in its form.
#[tactic(auto, unfolding(crate::specs::NextSymbol::steppable))]
pub fn can_step(rule: u8, w: [u8; 16], n: usize) -> bool
    ensures { result ≡ steppable rule n w }
{
    is_rule(rule) && in_form(rule, w, n)
}

// Tests 6, 7 and 8 of a window under a rule.
#[tactic(auto, unfolding(crate::specs::NextSymbol::judged, weak_orders::specs::Window::is_length))]
pub fn judge(rule: u8, w: [u8; 16], n: usize) -> Result<(), Cause>
    ensures { result ≡ judged rule n (take n w) }
{
    if !weak_orders::is_length(n) {
        return Err(Cause::WindowLength);
    }
    if !is_rule(rule) {
        return Err(Cause::RuleNumber);
    }
    if !in_form(rule, w, n) {
        return Err(Cause::NotWeakOrder);
    }
    Ok(())
}

// The symbol that follows, or why there is none.
#[tactic(auto, using(crate::proofs::Steppable::in_heights, crate::proofs::RuleNumbers::is_rule2, crate::proofs::RuleNumbers::is_rule3), unfolding(crate::specs::NextSymbol::next_symbol, crate::specs::NextSymbol::answer_by))]
pub fn next_symbol(rule: u8, w: [u8; 16], n: usize) -> Result<u8, Cause>
    ensures { result ≡ next_symbol rule n (take n w) }
{
    if rule == 1 {
        return next_in_ranks(w, n);
    }
    judge(rule, w, n)?;
    let window = HeightWindow { w, n };
    if rule == 2 {
        return Ok(window.successor2());
    }
    Ok(window.successor3())
}

// One step: the oldest symbol is dropped and the rule's appended. A window that cannot step stays as it is.
#[tactic(auto, using(crate::proofs::Steppable::step_symbol, crate::proofs::Steppable::stays))]
pub fn step(rule: u8, w: [u8; 16], n: usize) -> [u8; 16]
    ensures { result ≡ step_or_stay rule n w }
{
    match next_symbol(rule, w, n) {
        Ok(s) => weak_orders::shift(w, n, s),
        Err(_) => w,
    }
}

// The rule that undoes a rule behind the same symbols. For a number that is no rule it is that number, and no rule either.
#[tactic(auto, unfolding(crate::specs::StepBack::undoing))]
fn undoing_rule(rule: u8) -> u8
    ensures { result ≡ undoing rule }
{
    match rule {
        2 => 3,
        3 => 2,
        _ => rule,
    }
}

// The symbol that the step to this window dropped, or why there is none: what the undoing rule makes of the newest symbol, turned to the front.
// A window turned back is in form just if it was before, so the test that the next symbol makes is the only one.
#[tactic(auto, using(crate::proofs::StepBack::previous_found))]
pub fn previous_symbol(rule: u8, w: [u8; 16], n: usize) -> Result<u8, Cause>
    ensures { result ≡ previous_symbol rule n (take n w) }
{
    let v = rotations::turned_back(w, n);
    next_symbol(undoing_rule(rule), v, n)
}

// The rotation that a rule compares with, or why there is none: where the least rotation starts under rule 1, the greatest under rules 2 and 3,
// with the period of the window.
#[tactic(auto, unfolding(crate::specs::RotationUnder::rotation_answer, crate::specs::RotationUnder::rotation_under, crate::specs::NextSymbol::answer_by))]
pub fn rotation_under(rule: u8, w: [u8; 16], n: usize) -> Result<Rotation, Cause>
    ensures { result ≡ rotation_answer rule n (take n w) }
{
    judge(rule, w, n)?;
    if rule == 1 {
        return Ok(rotations::least_rotation(w, n));
    }
    Ok(rotations::greatest_rotation(w, n))
}
