// The printed round, page by page: the opening, and then lines into a lent slice, as many as have room.
// Rests on sheets for what becomes of a sheet, on successors for the steps, on levels, and on ranking for a(n). Writes slices only; the
// program `round` does the input and output.
#![tactic(auto)]

mod writer;

ghost use Rattle.std.specs.Prelude.{true, ◌++◌, ◌≡◌, ◌+◌, ◌≤◌, ◌<◌, length, take, drop};
ghost use Rattle.weak_orders.specs.Window.{is_length};
ghost use Rattle.successors.specs.NextSymbol.{steppable};
ghost use Rattle.printing.specs.Writing.{Wrote, Counts};
ghost use Rattle.printing.specs.Printing.{line_text, no_round, opening, started, onward, last_line, next_page};

use refusals::Cause;
use sheets::judge::Round;

// Where the printing of a round stands: the round with the window after `done` of `last` steps.
#[derive(Clone, Copy)]
pub struct Printing {
    pub round: Round,
    pub done: u64,
    pub last: u64,
}

// Where it stands after a page, and how many bytes of the lent slice the page has.
#[derive(Clone, Copy)]
pub struct Page {
    pub printing: Printing,
    pub len: usize,
}

// Any line, and any opening, has room in so many bytes.
const LONGEST: usize = 128;

// One line.
fn put_row(
    out: &mut [u8],
    at: usize,
    k: u64,
    symbol: u8,
    level: i32,
    w: [u8; 16],
    n: usize,
) -> usize
    requires { (1 ≤ n) × (n ≤ 16) × (at + length (line_text k symbol level (take n w)) ≤ length out.old) }
    ensures { Wrote out.old at (line_text k symbol level (take n w)) result out.new }
{
    let second = writer::put_decimal_field(out, at, k, b' ');
    let third = writer::put_decimal_field(out, second, u64::from(symbol), b' ');
    let fourth = writer::put_signed_field(out, third, level, b' ');
    writer::put_joined_field(out, fourth, w, n, b'\n')
}

fn no_round() -> Round
    ensures { result ≡ no_round }
{
    Round {
        n: 0,
        rule: 0,
        setting: levels::setting_of(0, 0),
        window: [0u8; 16],
    }
}

// Before the first line. A refused sheet has no lines.
pub fn started(judged: Result<Round, Cause>) -> Printing
    ensures { result ≡ started judged }
{
    match judged {
        Ok(round) => Printing {
            round,
            done: 0,
            last: ranking::weak_order_count(round.n),
        },
        Err(_) => Printing {
            round: no_round(),
            done: 0,
            last: 0,
        },
    }
}

// A text at the front of a slice, and its length.
fn put_front(text: &[u8], out: &mut [u8]) -> usize
    requires { length text.now ≤ length out.old }
    ensures at { result ≡ length text.now }
    ensures written { out.new ≡ text.now ++ drop (length text.now) out.old }
{
    let end = text.len();
    out[..end].copy_from_slice(text);
    end
}

// The heading of a round, or the refusal. A slice of under 128 bytes stays as it is.
pub fn put_opening(told: Result<(), Cause>, out: &mut [u8]) -> usize
    ensures out_after { (result, out.new) ≡ opening told out.old }
    ensures within { Counts result out.new }
{
    if out.len() < LONGEST {
        return 0;
    }
    match told {
        Ok(()) => put_front(b"step symbol level window\n", out),
        Err(cause) => {
            let number = u8::from(cause);
            let at = put_front(b"refused\n", out);
            writer::put_decimal_field(out, at, u64::from(number), b'\n')
        }
    }
}

// One step further.
fn onward(p: Printing) -> Printing
    requires { (steppable p.round.rule p.round.n p.round.window ≡ true) × (p.done < p.last) }
    ensures { result ≡ onward p }
{
    let round = p.round;
    let next = successors::step(round.rule, round.window, round.n);
    Printing {
        round: Round {
            window: next,
            ..round
        },
        done: p.done + 1,
        last: p.last,
    }
}

// The line of the step made last.
fn put_line(out: &mut [u8], at: usize, p: Printing) -> usize
    requires { (is_length p.round.n ≡ true) × (at + length (last_line p) ≤ length out.old) }
    ensures { Wrote out.old at (last_line p) result out.new }
{
    let round = p.round;
    let n = round.n;
    let w = round.window;
    let symbol = w[n - 1];
    let level = levels::level(round.rule, round.setting, symbol);
    put_row(out, at, p.done, symbol, level, w, n)
}

// The lines that follow, as many as there are while 128 bytes are left. No index is counted: how long a line is shows when it is written.
pub fn next_page(p: Printing, out: &mut [u8]) -> Page
    ensures out_after { (result, out.new) ≡ next_page p out.old }
    ensures within { Counts result.len out.new }
{
    let round = p.round;
    if !successors::can_step(round.rule, round.window, round.n) {
        return Page {
            printing: p,
            len: 0,
        };
    }
    let mut now = p;
    let mut len = 0;
    while (now.done < now.last) & (LONGEST <= out.len() - len) {
        now = onward(now);
        len = put_line(out, len, now);
    }
    Page { printing: now, len }
}
