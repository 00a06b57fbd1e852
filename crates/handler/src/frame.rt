// A frame whose answer has room: its tests in order, and its answer.
ghost use Rattle.std.specs.Prelude.{true, cond, ◌≡◌, length};
ghost use Rattle.frames.specs.Answer.{accepted};
ghost use Rattle.frames.specs.Question.{is_second};
ghost use Rattle.stepper.specs.Exchange.{has_begun, table_for, version_of, round_in, takes_number, begin_anew, begin_frame, step_frame, query_frame};
ghost use Rattle.stepper.specs.Exchange.{handle, answer_to};

use frames::answer::Reply;
use frames::question;
use refusals::Cause;
use stepper::session;
use stepper::session::{Exchanged, Session};

// The round's copy of the table held, if a begin frame asks for it.
#[tactic(auto, unfolding(stepper::specs::Exchange::table_for))]
fn table_for(f: [u8; 40], held: [i16; 16]) -> [i16; 16]
    ensures { result ≡ table_for f held }
{
    if question::takes_table(f) {
        held
    } else {
        [0; 16]
    }
}

// The version of the session that a begin frame asks for.
fn version_in(f: [u8; 40]) -> u8
    ensures { result ≡ version_of (is_second f) }
{
    if question::is_second(&f) { 2 } else { 1 }
}

// The session that a begin frame asks for. Out of line, so that a frame needs less stack: no call takes more than 1500 bytes.
#[inline(never)]
#[tactic(auto, unfolding(stepper::specs::Exchange::round_in))]
fn round_in(f: [u8; 40], held: [i16; 16]) -> Session
    ensures { result ≡ round_in f held }
{
    Session {
        begun: 1,
        version: version_in(f),
        round: f[7],
        n: usize::from(f[5]),
        rule: f[6],
        setting: question::setting_in(f, table_for(f, held)),
        window: question::window_in(f),
        done: 0,
        held,
    }
}

// A begin frame for a new round: tests 6 to 9, and 19. `taken` says whether its number is that of the WKO2 round in force.
#[tactic(auto, unfolding(stepper::specs::Exchange::begin_anew, frames::specs::Answer::accepted))]
fn begin_anew(session: Session, taken: bool, f: [u8; 40]) -> Exchanged
    requires { taken ≡ takes_number session f }
    ensures { result ≡ begin_anew session f }
{
    let next = round_in(f, session.held);
    let reply = session::begin_reply(next);
    match reply {
        Reply::Refused(cause) => session.refuse(cause),
        Reply::Accepted { .. } => {
            if taken {
                return session.refuse(Cause::RoundInForce);
            }
            Exchanged {
                session: next,
                reply,
            }
        }
    }
}

// The three kinds, from test 5 on.
#[tactic(auto, unfolding(stepper::specs::Exchange::begin_frame, stepper::specs::Exchange::is_again, stepper::specs::Exchange::takes_number))]
fn begin_frame(session: Session, f: [u8; 40]) -> Exchanged
    ensures { result ≡ begin_frame session f }
{
    if !question::reserved_begin(f) {
        return session.refuse(Cause::ReservedByte);
    }
    let force = session.in_force();
    if session.is_again(force, f) {
        return session.accept();
    }
    let taken = session.takes_number(force, f);
    begin_anew(session, taken, f)
}

#[tactic(auto, unfolding(stepper::specs::Exchange::step_frame))]
fn step_frame(session: Session, f: [u8; 40]) -> Exchanged
    ensures { result ≡ step_frame session f }
{
    if !question::reserved_step(f) {
        return session.refuse(Cause::ReservedByte);
    }
    session.step(question::is_second(&f), f[7], question::number_in(f))
}

#[tactic(auto, unfolding(stepper::specs::Exchange::query_frame))]
fn query_frame(session: Session, f: [u8; 40]) -> Exchanged
    ensures { result ≡ query_frame session f }
{
    if !question::reserved_query(f) {
        return session.refuse(Cause::ReservedByte);
    }
    session.query(question::is_second(&f))
}

// Tests 2 to 4, then by kind.
#[inline(always)]
#[tactic(auto, unfolding(stepper::specs::Exchange::handle))]
pub(crate) fn handle(session: Session, frame: &[u8]) -> Exchanged
    ensures { result ≡ handle session frame.now }
{
    let Ok(f) = <[u8; 40]>::try_from(frame) else {
        return session.refuse(Cause::FrameLength);
    };
    if !question::is_question(f) {
        return session.refuse(Cause::FrameHeader);
    }
    match f[4] {
        b'B' => begin_frame(session, f),
        b'S' => step_frame(session, f),
        b'Q' => query_frame(session, f),
        _ => session.refuse(Cause::FrameKind),
    }
}

// The round number in an accepted answer: that of a WKO2 round.
fn round_shown(second: bool, round: u8) -> u8
    ensures { result ≡ cond second round 0 }
{
    if second { round } else { 0 }
}

// The forty bytes of an answer to a frame of the second version or another. An accepted frame leaves a session that has begun, whose symbols fit
// the bits of a u32, so `as` loses none.
pub(crate) fn answer_to(x: Exchanged, second: bool) -> [u8; 40]
    requires { accepted x.reply ≡ true → has_begun x.session ≡ true }
    ensures { result ≡ answer_to second x }
{
    let session = x.session;
    let round = round_shown(second, session.round);
    let different = weak_orders::different(session.window, session.n) as u8;
    frames::answer::answer_bytes(
        second,
        round,
        x.reply,
        different,
        session.done,
        session.window,
    )
}
