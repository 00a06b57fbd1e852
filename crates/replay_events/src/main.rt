// Frames and level files in, answers out: for people who write hosts. A record of standard input is the byte F and a record of replay, and is
// answered as there; or the byte L, two bytes of length, the low one first, and a level file of that many bytes, for which the program writes
// one byte, 0 or the number of the refusal. One session goes through all records, from fresh. The run ends as a run of replay does; it also
// ends at a record that starts with neither F nor L, and standard error says so.
#![tactic(auto)]

use records::{Kind, Streams};

// One call, as in replay: what the two share is the crate records.
fn main(rt: HostRuntime) {
    let mut streams = Streams {
        name: b"replay_events",
        input: rt.stdin(),
        output: rt.stdout(),
        errors: rt.stderr(),
    };
    streams.run(Kind::Events);
}
