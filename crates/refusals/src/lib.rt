// Why a frame, a call, a sheet or a level file is turned down: document 01's table of refusals with document 02's behind it, once for all crates.
// Rests on nothing. What is left as it was is for each caller's contract to say.
#![tactic(auto)]

ghost use Rattle.std.specs.Prelude.{◌≡◌};
ghost use Rattle.refusals.specs.Numbers.{cause_number};

// The causes in the order of document 01's table, "Turned down", and then those of document 02.
#[derive(Clone, Copy, Debug, PartialEq, Eq)]
pub enum Cause {
    ShortBuffer,
    FrameLength,
    FrameHeader,
    FrameKind,
    ReservedByte,
    WindowLength,
    RuleNumber,
    NotWeakOrder,
    LevelSetting,
    NotBegun,
    StepNumber,
    RoundFinished,
    NoSuchPlace,
    SheetMalformed,
    NoFilling,
    LevelFile,
    OtherVersion,
    OtherRound,
    RoundInForce,
}

// The table's number of a cause.
impl From<Cause> for u8 {
    ghost from_gives = { λ c r. r ≡ cause_number c };

    fn from(cause: Cause) -> u8 {
        match cause {
            Cause::ShortBuffer => 1,
            Cause::FrameLength => 2,
            Cause::FrameHeader => 3,
            Cause::FrameKind => 4,
            Cause::ReservedByte => 5,
            Cause::WindowLength => 6,
            Cause::RuleNumber => 7,
            Cause::NotWeakOrder => 8,
            Cause::LevelSetting => 9,
            Cause::NotBegun => 10,
            Cause::StepNumber => 11,
            Cause::RoundFinished => 12,
            Cause::NoSuchPlace => 13,
            Cause::SheetMalformed => 14,
            Cause::NoFilling => 15,
            Cause::LevelFile => 16,
            Cause::OtherVersion => 17,
            Cause::OtherRound => 18,
            Cause::RoundInForce => 19,
        }
    }
}
