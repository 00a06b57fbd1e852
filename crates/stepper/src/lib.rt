// A session that steps through the weak orders of n: what it holds, whether it has begun, a step, a query.
// Rests on levels and frames, on successors for the steps and on ranking for a round's length. The specs say what a frame and a level file do to
// a session, and that each step is made exactly once; crate handler is the code that takes frames and files.
#![tactic(auto)]

pub mod session;
