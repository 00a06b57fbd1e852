// The session: whether it has begun, a step, a query.
ghost use Rattle.std.specs.Prelude.{true, cond, ◌≡◌, ◌+◌, ◌<◌, leb, take, drop};
ghost use Rattle.weak_orders.specs.Says.{Says};
ghost use Rattle.weak_orders.specs.Window.{is_length};
ghost use Rattle.ranking.specs.Counts.{a};
ghost use Rattle.successors.specs.Rules.{rule_of};
ghost use Rattle.frames.specs.Fields.{zeros};
ghost use Rattle.stepper.specs.Exchange.{reply_if, begin_reply, in_second, is_numbered, begun_if, has_begun, fresh, refuse, accept, in_force};
ghost use Rattle.stepper.specs.Exchange.{again_if, takes_if, onward, stepped, same_version, if_begun, step_numbered, step_of, query_of};

use frames::answer::Reply;
use frames::{field, question};
use levels::Setting;
use refusals::Cause;

// A session. Any values of the fields may be handed in; `has_begun` judges them. `begun` is a byte, since a session that a device kept
// may hold any: 1 has begun, every other value has not. So is `version`, that of the begin frame in force: 2 is WKO2, every other value WKO1.
// `round` is the round number of a WKO2 round. `held` is the level table loaded last; a round on a table has a copy in its setting.
#[repr(C)]
#[derive(Clone, Copy)]
pub struct Session {
    pub begun: u8,
    pub version: u8,
    pub round: u8,
    pub n: usize,
    pub rule: u8,
    pub setting: Setting,
    pub window: [u8; 16],
    pub done: u64,
    pub held: [i16; 16],
}

// What a frame comes to, or a level file: the session after it, and the reply.
#[derive(Clone, Copy)]
pub struct Exchanged {
    pub session: Session,
    pub reply: Reply,
}

// The bytes of a window from n on are zero.
fn unused_zero(w: [u8; 16], n: usize) -> bool
    ensures { result ≡ zeros (drop n w) }
{
    16 < n || field::all_zero(&w[n..])
}

// The reply to a begin frame for the round that the session holds: tests 6 to 9. `formed` says whether its window is in the rule's form. Inlined,
// since each call would copy the session to the stack.
#[inline(always)]
#[tactic(auto, unfolding(crate::specs::Exchange::reply_if))]
fn reply_if(s: Session, formed: bool) -> Reply
    ensures { result ≡ reply_if s formed }
{
    if !weak_orders::is_length(s.n) {
        return Reply::Refused(Cause::WindowLength);
    }
    if !successors::is_rule(s.rule) {
        return Reply::Refused(Cause::RuleNumber);
    }
    if !(formed && unused_zero(s.window, s.n)) {
        return Reply::Refused(Cause::NotWeakOrder);
    }
    if !levels::setting_ok(s.n, s.setting) {
        return Reply::Refused(Cause::LevelSetting);
    }
    Reply::Accepted {
        symbol: 0,
        level: 0,
    }
}

pub fn begin_reply(s: Session) -> Reply
    ensures { result ≡ begin_reply s }
{
    reply_if(s, successors::in_form(s.rule, s.window, s.n))
}

impl Session {
    // A session that has not begun, and holds no table.
    #[tactic(auto, unfolding(crate::specs::Exchange::fresh))]
    pub fn fresh() -> Session
        ensures { result ≡ fresh }
    {
        Session {
            begun: 0,
            version: 1,
            round: 0,
            n: 0,
            rule: 0,
            setting: levels::setting_of(0, 0),
            window: [0; 16],
            done: 0,
            held: [0; 16],
        }
    }

    // A refusal leaves the session.
    pub fn refuse(self, cause: Cause) -> Exchanged
        ensures { result ≡ refuse self cause }
    {
        Exchanged {
            session: self,
            reply: Reply::Refused(cause),
        }
    }

    // A frame without a symbol and a level is accepted, or a level file: the session that it leaves.
    pub fn accept(self) -> Exchanged
        ensures { result ≡ accept self }
    {
        Exchanged {
            session: self,
            reply: Reply::Accepted {
                symbol: 0,
                level: 0,
            },
        }
    }

    // A WKO2 round has a number from 1 on.
    #[tactic(auto, unfolding(crate::specs::Exchange::is_numbered, crate::specs::Exchange::in_second))]
    fn is_numbered(self) -> bool
        ensures { result ≡ is_numbered self }
    {
        self.version != 2 || self.round != 0
    }

    // Document 01's "counts as begun", where `formed` says whether the window is in the rule's form.
    #[inline(always)]
    fn begun_if(self, formed: bool) -> bool
        ensures { result ≡ begun_if self formed }
    {
        if self.begun != 1 {
            return false;
        }
        match reply_if(self, formed) {
            Reply::Accepted { .. } => {
                self.done <= ranking::weak_order_count(self.n) && self.is_numbered()
            }
            Reply::Refused(_) => false,
        }
    }

    pub fn has_begun(self) -> bool
        ensures { result ≡ has_begun self }
    {
        self.begun_if(successors::in_form(self.rule, self.window, self.n))
    }

    // A WKO2 round is in force.
    #[tactic(auto, unfolding(crate::specs::Exchange::in_force, crate::specs::Exchange::in_second))]
    pub fn in_force(self) -> bool
        ensures { result ≡ in_force self }
    {
        self.has_begun() && self.version == 2
    }

    // The begin frame in force again, with no step done: while none is, the session gives its forty bytes back. `force` says whether a WKO2
    // round is in force, so that a begin frame asks for that once.
    pub fn is_again(self, force: bool, f: [u8; 40]) -> bool
        ensures { result ≡ again_if self force f }
    {
        let Ok(n) = u8::try_from(self.n) else {
            return false;
        };
        if !force {
            return false;
        }
        let begun_by = question::begin_bytes(
            true,
            n,
            self.rule,
            self.round,
            self.setting,
            self.window,
        );
        self.done == 0 && field::same(&f, &begun_by)
    }

    // A begin frame with the round number of the WKO2 round in force.
    #[tactic(auto, unfolding(crate::specs::Exchange::takes_if))]
    pub fn takes_number(self, force: bool, f: [u8; 40]) -> bool
        ensures { result ≡ takes_if self force f }
    {
        force && question::is_second(&f) && f[7] == self.round
    }

    // A frame of the second version, or of the first, is in the version of the round.
    #[tactic(auto, unfolding(crate::specs::Exchange::same_version, crate::specs::Exchange::in_second))]
    fn is_version(self, second: bool) -> bool
        ensures { result ≡ same_version second (in_second self) }
    {
        second == (self.version == 2)
    }

    // A refusal that comes behind test 10.
    fn refuse_begun(self, cause: Cause) -> Exchanged
        ensures { result ≡ if_begun self (refuse self cause) }
    {
        if !self.has_begun() {
            return self.refuse(Cause::NotBegun);
        }
        self.refuse(cause)
    }

    // The symbol appended, and one more step done, which is `number`. Field by field: `..self` took 64 bytes more of stack in `wko_exchange`.
    fn onward(self, number: u64, symbol: u8) -> Session
        requires { (is_length self.n ≡ true) × (symbol ≡ rule_of self.rule (take self.n self.window)) × (number ≡ self.done + 1) }
        ensures { result ≡ onward self }
    {
        let mut next = self;
        next.window = weak_orders::shift(self.window, self.n, symbol);
        next.done = number;
        next
    }

    // An accepted step, first or resent, left the session: its newest symbol and that symbol's level.
    fn stepped(self) -> Exchanged
        requires { is_length self.n ≡ true }
        ensures { result ≡ stepped self }
    {
        let symbol = self.window[self.n - 1];
        let level = levels::level(self.rule, self.setting, symbol);
        Exchanged {
            session: self,
            reply: Reply::Accepted { symbol, level },
        }
    }

    // The number is done + 1, and the round is not finished.
    fn is_next(self, number: u64) -> bool
        ensures { Says result ((number ≡ self.done + 1) × (self.done < cond (leb self.n 16) (a self.n) 0)) }
    {
        number.checked_sub(1) == Some(self.done) && self.done < ranking::weak_order_count(self.n)
    }

    // The next step. What gives the symbol tests the window's form, so that it is tested once a frame.
    fn next_step(self, number: u64) -> Exchanged
        requires { (number ≡ self.done + 1) × (self.done < cond (leb self.n 16) (a self.n) 0) }
        ensures { result ≡ if_begun self (step_numbered self number) }
    {
        if !self.begun_if(true) {
            return self.refuse(Cause::NotBegun);
        }
        match successors::next_symbol(self.rule, self.window, self.n) {
            Ok(symbol) => self.onward(number, symbol).stepped(),
            Err(_) => self.refuse(Cause::NotBegun),
        }
    }

    // Any other step frame of the round: done is a resend.
    fn other_step(self, number: u64) -> Exchanged
        requires { number ≡ self.done + 1 → self.done < cond (leb self.n 16) (a self.n) 0 → ⊥ }
        ensures { result ≡ if_begun self (step_numbered self number) }
    {
        if !self.has_begun() {
            return self.refuse(Cause::NotBegun);
        }
        if number == 0 {
            return self.refuse(Cause::StepNumber);
        }
        if number == self.done {
            return self.stepped();
        }
        if number - 1 != self.done {
            return self.refuse(Cause::StepNumber);
        }
        self.refuse(Cause::RoundFinished)
    }

    // A step frame of the second version or the first, with a round number, which counts in the second.
    #[tactic(auto, unfolding(crate::specs::Exchange::step_of, crate::specs::Exchange::if_version))]
    pub fn step(self, second: bool, round: u8, number: u64) -> Exchanged
        ensures { result ≡ step_of self second round number }
    {
        if !self.is_version(second) {
            return self.refuse_begun(Cause::OtherVersion);
        }
        if second && round != self.round {
            return self.refuse_begun(Cause::OtherRound);
        }
        if self.is_next(number) {
            return self.next_step(number);
        }
        self.other_step(number)
    }

    // A query frame changes nothing, and has no symbol and no level.
    #[tactic(auto, unfolding(crate::specs::Exchange::query_of, crate::specs::Exchange::if_begun, crate::specs::Exchange::if_version))]
    pub fn query(self, second: bool) -> Exchanged
        ensures { result ≡ query_of self second }
    {
        if !self.has_begun() {
            return self.refuse(Cause::NotBegun);
        }
        if !self.is_version(second) {
            return self.refuse(Cause::OtherVersion);
        }
        self.accept()
    }
}
