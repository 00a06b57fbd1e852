// The session for firmware in C: a struct by value, one call for a frame and one for a level file. Their contracts are those of handler's calls.
ghost use Rattle.std.specs.Prelude.{◌≡◌};
ghost use Rattle.stepper.specs.Exchange.{fresh};
ghost use Rattle.wko.specs.SessionCalls.{exchange_call, load_call};

use stepper::session::Session;

// The session after a frame, and 0 or the number of the refusal, as C declares it.
#[repr(C)]
#[derive(Clone, Copy)]
pub struct Exchanged {
    pub session: Session,
    pub number: u32,
}

// The session after a level file, and 0 or 16. A struct of its own, as the C interface declares it.
#[repr(C)]
#[derive(Clone, Copy)]
pub struct Loaded {
    pub session: Session,
    pub number: u32,
}

// A session that has not begun, and holds no table.
#[unsafe(no_mangle)]
pub extern "C" fn wko_fresh() -> Session
    ensures { result ≡ fresh }
{
    Session::fresh()
}

// One frame.
#[unsafe(no_mangle)]
pub extern "C" fn wko_exchange(session: Session, frame: &[u8], answer: &mut [u8]) -> Exchanged
    ensures { (result, answer.new) ≡ exchange_call session frame.now answer.old }
{
    let exchanged = handler::exchange(session, frame, answer);
    Exchanged {
        session: exchanged.session,
        number: u32::from(frames::answer::number(exchanged.reply)),
    }
}

// One level file.
#[unsafe(no_mangle)]
pub extern "C" fn wko_load_levels(session: Session, file: &[u8]) -> Loaded
    ensures { result ≡ load_call session file.now }
{
    let loaded = handler::load_levels(session, file);
    Loaded {
        session: loaded.session,
        number: u32::from(frames::answer::number(loaded.reply)),
    }
}
