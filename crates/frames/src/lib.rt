// Frames of forty bytes: the fields of a question and the bytes of an answer.
// Rests on levels for the level setting that a question carries. Holds no session and judges no step.
#![tactic(auto)]

pub mod answer;
pub mod field;
pub mod question;
