// One session through the records of an input: what the programs replay and replay_events do. Their sources say what a record is.
// Rests on handler for what a record comes to, on input for reads, on output for writes, and on failures for what is said of one that failed.
#![tactic(auto)]

ghost use Rattle.std.specs.Prelude.{true, ◌≡◌, ◌≤◌, ℕ, List, length, drop, replicate, IfSome, IsSome, IsNone};
ghost use Rattle.std.specs.Io.KnownBytes.{Appends, Consumes};
ghost use Rattle.stepper.specs.Exchange.{exchange, load_levels};
ghost use Rattle.records.specs.Answered.{numbered, answered, Comes, Reached};
ghost use Rattle.records.specs.Runs.{IsFront, Cut, body_of, record_of, IsFrame, IsFile, IsOf, PlaysOrEnds, Ran};

use frames::answer;
use std::io;
use std::io::{Read, Write};
use stepper::session::{Exchanged, Session};

// What the records hold: frames, or each a frame or a level file, as its first byte says.
#[derive(Clone, Copy, Debug, PartialEq, Eq)]
pub enum Kind {
    Frames,
    Events,
}

// Where a run has its records from, where their answers go, and where it says what is wrong, with the program's name in front.
#[derive(Drop)]
pub struct Streams<'a, I, O, E> {
    pub name: &'a [u8],
    pub input: I,
    pub output: O,
    pub errors: E,
}

// What one record holds.
#[derive(Clone, Copy, Debug, PartialEq, Eq)]
pub enum Content {
    Frame,
    LevelFile,
}

// Where a part stands in its record. The input may end before a record starts, and not inside it.
#[derive(Clone, Copy, Debug, PartialEq, Eq)]
enum Place {
    Start,
    Inside,
}

// An answer buffer with room for the number in front.
fn filled() -> [u8; 256]
    ensures { result ≡ replicate 256 165 }
{
    [165; 256]
}

// The number goes in front, so `out` has a byte, here and below: a type for such a slice would say no more. What is behind it stays: the answer
// buffer of a frame, and nothing for a level file.
fn put_number(x: Exchanged, out: &mut [u8]) -> Session
    requires { 1 ≤ length out.old }
    ensures { (result, out.new) ≡ numbered (x, drop 1 out.old) }
{
    out[0] = answer::number(x.reply);
    x.session
}

fn answer_frame(session: Session, frame: &[u8], out: &mut [u8]) -> Session
    requires { 1 ≤ length out.old }
    ensures { (result, out.new) ≡ numbered (exchange session frame.now (drop 1 out.old)) }
{
    let x = handler::exchange(session, frame, &mut out[1..]);
    put_number(x, out)
}

fn answer_file(session: Session, file: &[u8], out: &mut [u8]) -> Session
    requires { 1 ≤ length out.old }
    ensures { (result, out.new) ≡ numbered (load_levels session file.now, drop 1 out.old) }
{
    let x = handler::load_levels(session, file);
    put_number(x, out)
}

// What a record holds, answered.
fn answer(session: Session, content: Content, bytes: &[u8], out: &mut [u8]) -> Session
    requires { 1 ≤ length out.old }
    ensures { (result, out.new) ≡ answered content session bytes.now (drop 1 out.old) }
{
    match content {
        Content::Frame => answer_frame(session, bytes, out),
        Content::LevelFile => answer_file(session, bytes, out),
    }
}

impl<I: Read, O: Write, E: Write> Streams<'_, I, O, E> {
    // What the stream does not take is lost: there is nothing left to say it on.
    fn say(&mut self, what: &[u8])
        ensures input { self.new.input ≡ self.old.input }
        ensures output { self.new.output ≡ self.old.output }
    {
        let _ = self.errors.write_all(self.name);
        let _ = self.errors.write_all(what);
    }

    // With the system's reason.
    fn say_failed(&mut self, what: &[u8], error: io::Error)
        ensures input { self.new.input ≡ self.old.input }
        ensures output { self.new.output ≡ self.old.output }
    {
        let _ = self.errors.write_all(self.name);
        failures::say(&mut self.errors, what, error);
    }

    // Whether a part of a record was read. If not, that is said, unless the record starts with this part and the input ends before it.
    fn read_part(&mut self, part: &mut [u8], place: Place) -> bool
        ensures some { (bs : List ℕ) × Consumes (I.remaining self.old.input) (I.remaining self.new.input) bs }
        ensures taken { result ≡ true → Consumes (I.remaining self.old.input) (I.remaining self.new.input) part.new }
        ensures output { self.new.output ≡ self.old.output }
    {
        let got = input::fill(&mut self.input, part);
        if let Some(error) = got.failed {
            self.say_failed(b": could not read a record", error);
            return false;
        }
        if got.len == part.len() {
            return true;
        }
        if place == Place::Inside || 0 < got.len {
            self.say(b": the last record is cut off\n");
        }
        false
    }

    // Whether the answer was written. If not, that is said, and no record may follow the gap.
    fn write_answer(&mut self, out: &[u8]) -> bool
        ensures written { result ≡ true → Appends (O.contents self.old.output) (O.contents self.new.output) out.now }
        ensures cut { (bs : List ℕ) × IsFront bs out.now × Appends (O.contents self.old.output) (O.contents self.new.output) bs }
        ensures input { self.new.input ≡ self.old.input }
    {
        let put = output::put(&mut self.output, out);
        if let Some(error) = put.failed {
            self.say_failed(b": could not write an answer", error);
            return false;
        }
        true
    }

    // A level file or a frame that fills its slice, answered in `out`, which is what is written.
    fn play_in(
        &mut self,
        session: Session,
        content: Content,
        bytes: &mut [u8],
        out: &mut [u8],
    ) -> Option<Session>
        requires { 1 ≤ length out.old }
        ensures answered { IfSome result (λ t. (t, out.new) ≡ answered content session bytes.new (drop 1 out.old)) }
        ensures taken { IsSome result → Consumes (I.remaining self.old.input) (I.remaining self.new.input) bytes.new }
        ensures written { IsSome result → Appends (O.contents self.old.output) (O.contents self.new.output) out.new }
        ensures cut { IsNone result → Cut bytes.new (answered content session bytes.new (drop 1 out.old)).1
            (I.remaining self.old.input) (I.remaining self.new.input)
            (O.contents self.old.output) (O.contents self.new.output) }
    {
        if !self.read_part(bytes, Place::Inside) {
            return None;
        }
        let next = answer(session, content, bytes, out);
        if !self.write_answer(out) {
            return None;
        }
        Some(next)
    }

    // A record of a frame, from its lengths on. `place` says whether it starts with them.
    fn play_frame(&mut self, session: Session, place: Place) -> Option<Session>
        ensures comes { IfSome result (λ t. Comes session t) }
        ensures plays { PlaysOrEnds body_of IsFrame session result
            (I.remaining self.old.input) (I.remaining self.new.input)
            (O.contents self.old.output) (O.contents self.new.output) }
    {
        let mut lengths = [0; 2];
        if !self.read_part(&mut lengths, place) {
            return None;
        }
        let [room, length] = lengths;
        let mut frame = [0; 256];
        let mut out = filled();
        let bytes = &mut frame[..usize::from(length)];
        self.play_in(
            session,
            Content::Frame,
            bytes,
            &mut out[..1 + usize::from(room)],
        )
    }

    // A record of a level file, from its length on. The buffer has room for any length that two bytes can say.
    fn play_file(&mut self, session: Session) -> Option<Session>
        ensures comes { IfSome result (λ t. Comes session t) }
        ensures plays { PlaysOrEnds body_of IsFile session result
            (I.remaining self.old.input) (I.remaining self.new.input)
            (O.contents self.old.output) (O.contents self.new.output) }
    {
        let mut lengths = [0; 2];
        if !self.read_part(&mut lengths, Place::Inside) {
            return None;
        }
        let [low, high] = lengths;
        // Not `from_le_bytes`: behind it the proof does not see that each byte is below 256.
        let length = usize::from(low) + 256 * usize::from(high);
        let mut file = [0; 65536];
        let mut out = [0; 1];
        self.play_in(session, Content::LevelFile, &mut file[..length], &mut out)
    }

    // A record of a frame or of a level file, by its first byte.
    fn play_event(&mut self, session: Session) -> Option<Session>
        ensures comes { IfSome result (λ t. Comes session t) }
        ensures plays { PlaysOrEnds (record_of Kind.Events) (IsOf Kind.Events) session result
            (I.remaining self.old.input) (I.remaining self.new.input)
            (O.contents self.old.output) (O.contents self.new.output) }
    {
        let mut letter = [0; 1];
        if !self.read_part(&mut letter, Place::Start) {
            return None;
        }
        match letter[0] {
            b'F' => self.play_frame(session, Place::Inside),
            b'L' => self.play_file(session),
            _ => {
                self.say(b": a record starts with neither F nor L\n");
                None
            }
        }
    }

    fn play(&mut self, kind: Kind, session: Session) -> Option<Session>
        ensures comes { IfSome result (λ t. Comes session t) }
        ensures plays { PlaysOrEnds (record_of kind) (IsOf kind) session result
            (I.remaining self.old.input) (I.remaining self.new.input)
            (O.contents self.old.output) (O.contents self.new.output) }
    {
        match kind {
            Kind::Frames => self.play_frame(session, Place::Start),
            Kind::Events => self.play_event(session),
        }
    }

    // Records behind the millionth are not played. If there are any, that is said.
    fn report_rest(&mut self)
        ensures some { (bs : List ℕ) × Consumes (I.remaining self.old.input) (I.remaining self.new.input) bs }
        ensures output { self.new.output ≡ self.old.output }
    {
        let mut next = [0; 1];
        if self.read_part(&mut next, Place::Start) {
            self.say(b": stopped after 1000000 records\n");
        }
    }

    // A record a turn. A million is an end, so that the run is proved to have one. Gives the session that the answered records left.
    pub fn run(&mut self, kind: Kind) -> Session
        ensures reached { Reached 1000000 result }
        ensures ran { Ran kind 1000000 result
            (I.remaining self.old.input) (I.remaining self.new.input)
            (O.contents self.old.output) (O.contents self.new.output) }
    {
        let mut session = Session::fresh();
        for _ in 0..1_000_000u32 {
            let Some(next) = self.play(kind, session) else {
                return session;
            };
            session = next;
        }
        self.report_rest();
        session
    }
}
