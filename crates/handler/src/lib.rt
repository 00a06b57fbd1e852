// What comes to a session from outside: frames of forty bytes, which are tested in order and answered, and level files.
// Rests on frames for bytes, on level_files, and on stepper for the session and for what a frame and a file come to. Opens no device and keeps
// no state of its own: a session goes in by value and comes back beside its reply.
#![tactic(auto)]

mod frame;

ghost use Rattle.std.specs.Prelude.{◌≡◌};
ghost use Rattle.stepper.specs.Exchange.{exchange, load_levels};

use frames::question;
use refusals::Cause;
use stepper::session::{Exchanged, Session};

// One frame: the session after it, the reply, and the answer in the first forty bytes of the buffer.
pub fn exchange(session: Session, frame: &[u8], answer: &mut [u8]) -> Exchanged
    ensures { (result, answer.new) ≡ exchange session frame.now answer.old }
{
    if answer.len() < 40 {
        return session.refuse(Cause::ShortBuffer);
    }
    let second = question::is_second(frame);
    let x = frame::handle(session, frame);
    let bytes = frame::answer_to(x, second);
    answer[..40].copy_from_slice(&bytes);
    x
}

// A level file: the table in it replaces the one that the session holds. A round that has begun goes on with its copy.
#[tactic(auto, unfolding(stepper::specs::Exchange::load_levels, stepper::specs::Exchange::loaded, stepper::specs::Exchange::with_table))]
pub fn load_levels(session: Session, file: &[u8]) -> Exchanged
    ensures { result ≡ load_levels session file.now }
{
    match level_files::read_table(file) {
        Some(table) => Session {
            held: table,
            ..session
        }
        .accept(),
        None => session.refuse(Cause::LevelFile),
    }
}
