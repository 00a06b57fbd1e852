// The C interface: direct calls on numbers and byte slices, declared in include/wko.h.
// A thin layer over weak_orders, ranking, filling and successors: it loads the window, calls, and copies the answer out. The frame call for
// firmware is in the module session. Numbers from C have 64 bits, and so has a usize, for which there is no `From`: hence `as usize`.
#![tactic(auto)]

pub mod session;

ghost use Rattle.std.specs.Prelude.{cond, ◌≡◌, ◌≤◌, Result, ℕ, ltb, IfOk};
ghost use Rattle.filling.specs.Answers.{fill_answer};
ghost use Rattle.refusals.specs.Numbers.{refusal};
ghost use Rattle.refusals.specs.declared.Cause.{Cause};
ghost use Rattle.successors.specs.NextSymbol.{next_number};
ghost use Rattle.successors.specs.RotationUnder.{rotation_answer};
ghost use Rattle.weak_orders.specs.Window.{loaded};
ghost use Rattle.wko.specs.Calls.{told_first, window_given, number_given};
ghost use Rattle.wko.specs.Calls.{next_symbol_call, previous_symbol_call, rotation_start_call, period_call, rank_to_height_call, height_to_rank_call, place_call, window_at_call, count_call, fill_call};

use refusals::Cause;
use rotations::Rotation;

// What C gets for a refusal: 256 and the table's number.
fn refused(cause: Cause) -> u32
    ensures { result ≡ refusal cause }
{
    256 + u32::from(u8::from(cause))
}

// A rule's number as a byte. One that does not fit is no rule, and neither is 0.
fn rule_number(rule: u64) -> u8
    ensures { result ≡ cond (ltb rule 256) rule 0 }
{
    u8::try_from(rule).unwrap_or(0)
}

// A number is its own answer.
fn answer(x: Result<u32, Cause>) -> u32
    ensures { result ≡ next_number x }
{
    match x {
        Ok(number) => number,
        Err(cause) => refused(cause),
    }
}

// A symbol beside the window under a rule, as a step tells it.
fn symbol_beside<F: Fn(u8, [u8; 16], usize) -> Result<u8, Cause>>(
    n: u64,
    rule: u64,
    window: &[u8],
    step: F,
) -> u32
    requires { F.IsAlwaysCallable step }
    ensures { (symbol : Result ℕ Cause) × F.post step (cond (ltb rule 256) rule 0) (loaded n window.now) n symbol × (result ≡ next_number symbol) }
{
    let w = weak_orders::load(window, n as usize);
    answer(step(rule_number(rule), w, n as usize).map(u32::from))
}

// The symbol that follows the window under a rule.
#[unsafe(no_mangle)]
pub extern "C" fn wko_next_symbol(n: u64, rule: u64, window: &[u8]) -> u32
    ensures { result ≡ next_symbol_call n rule window.now }
{
    symbol_beside(n, rule, window, successors::next_symbol)
}

// The step back: the oldest symbol of the only window that the rule sends to this one.
#[unsafe(no_mangle)]
pub extern "C" fn wko_previous_symbol(n: u64, rule: u64, window: &[u8]) -> u32
    ensures { result ≡ previous_symbol_call n rule window.now }
{
    symbol_beside(n, rule, window, successors::previous_symbol)
}

// The rotation that the rule compares with, for the slice's window.
fn rotation(n: u64, rule: u64, window: &[u8]) -> Result<Rotation, Cause>
    ensures value { result ≡ rotation_answer rule n window.now }
    ensures small { IfOk result (λ r. (r.start ≤ 16) × (r.period ≤ 16)) }
{
    let w = weak_orders::load(window, n as usize);
    successors::rotation_under(rule_number(rule), w, n as usize)
}

// Where the least rotation of the window starts under rule 1, the greatest under rules 2 and 3.
#[unsafe(no_mangle)]
pub extern "C" fn wko_rotation_start(n: u64, rule: u64, window: &[u8]) -> u32
    ensures { result ≡ rotation_start_call n rule window.now }
{
    answer(rotation(n, rule, window).map(|r| r.start as u32))
}

// The number of different rotations of the window.
#[unsafe(no_mangle)]
pub extern "C" fn wko_period(n: u64, rule: u64, window: &[u8]) -> u32
    ensures { result ≡ period_call n rule window.now }
{
    answer(rotation(n, rule, window).map(|r| r.period as u32))
}

// Direct calls test 6, 7, 1, then 8 or 13, and 15 last: a cause that is told before a short buffer.
#[tactic(auto, using(crate::proofs::Cases::late), unfolding(crate::specs::Calls::told_first))]
fn told_first(cause: Cause) -> bool
    ensures { result ≡ told_first cause }
{
    matches!(cause, Cause::WindowLength | Cause::RuleNumber)
}

// The first n bytes of an answer: told, and written over the front of a buffer where they are accepted and there is room.
fn give<const N: usize>(x: Result<[u8; N], Cause>, n: usize, out: &mut [u8]) -> u32
    requires { IfOk x (λ _. n ≤ N) }
    ensures { (result, out.new) ≡ window_given n x.entry out.old }
{
    match x {
        Ok(bytes) if n <= out.len() => {
            out[..n].copy_from_slice(&bytes[..n]);
            0
        }
        Err(cause) if n <= out.len() || told_first(cause) => refused(cause),
        _ => refused(Cause::ShortBuffer),
    }
}

// Ranks to heights.
#[unsafe(no_mangle)]
pub extern "C" fn wko_rank_to_height(n: u64, window: &[u8], out: &mut [u8]) -> u32
    ensures { (result, out.new) ≡ rank_to_height_call n window.now out.old }
{
    let w = weak_orders::load(window, n as usize);
    give(weak_orders::rank_to_height(w, n as usize), n as usize, out)
}

// Heights to ranks.
#[unsafe(no_mangle)]
pub extern "C" fn wko_height_to_rank(n: u64, window: &[u8], out: &mut [u8]) -> u32
    ensures { (result, out.new) ≡ height_to_rank_call n window.now out.old }
{
    let w = weak_orders::load(window, n as usize);
    give(weak_orders::height_to_rank(w, n as usize), n as usize, out)
}

// A number for an answer, in eight bytes, little-endian.
fn give_number(x: Result<u64, Cause>, out: &mut [u8]) -> u32
    ensures { (result, out.new) ≡ number_given x out.old }
{
    give(x.map(frames::field::bytes_of), 8, out)
}

// The place of a height window in dictionary order.
#[unsafe(no_mangle)]
pub extern "C" fn wko_place(n: u64, window: &[u8], out: &mut [u8]) -> u32
    ensures { (result, out.new) ≡ place_call n window.now out.old }
{
    let w = weak_orders::load(window, n as usize);
    give_number(ranking::place(w, n as usize), out)
}

// The height window of n at a place.
#[unsafe(no_mangle)]
pub extern "C" fn wko_window_at(n: u64, place: u64, out: &mut [u8]) -> u32
    ensures { (result, out.new) ≡ window_at_call n place out.old }
{
    give(ranking::window_at(n as usize, place), n as usize, out)
}

// How many weak orders of n there are: the steps of a round, and what places stay below.
#[unsafe(no_mangle)]
pub extern "C" fn wko_count(n: u64, out: &mut [u8]) -> u32
    ensures { (result, out.new) ≡ count_call n out.old }
{
    give_number(ranking::count(n as usize), out)
}

// The first weak order for a pattern of n. One of another length is refused before it is loaded, since `load` would leave all its places open.
fn filling_of(pattern: &[u8], n: usize) -> Result<[u8; 16], Cause>
    ensures { result ≡ fill_answer n pattern.now }
{
    weak_orders::judge(n, pattern.len() == n)?;
    filling::fill(weak_orders::load(pattern, n), n)
}

// The first weak order of n in height form, in dictionary order, that agrees with a pattern.
#[unsafe(no_mangle)]
pub extern "C" fn wko_fill(n: u64, pattern: &[u8], out: &mut [u8]) -> u32
    ensures { (result, out.new) ≡ fill_call n pattern.now out.old }
{
    give(filling_of(pattern, n as usize), n as usize, out)
}
