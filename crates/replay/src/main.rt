// Frames in, answers out: for people who write hosts. Standard input holds records: one byte for the length of the answer buffer, one
// for the length of the frame, then the frame's bytes. For each record the program writes one byte, 0 or the number of the refusal,
// and then the whole answer buffer, which held 165 in every byte before. One session goes through all records, from fresh. The run ends
// where the input ends between two records. It also ends at a record that is cut off, at a read or a write that fails and after a
// million records if more follow, and then standard error says so.
#![tactic(auto)]

use records::{Kind, Streams};

// One call, as in replay_events: what the two share is the crate records.
fn main(rt: HostRuntime) {
    let mut streams = Streams {
        name: b"replay",
        input: rt.stdin(),
        output: rt.stdout(),
        errors: rt.stderr(),
    };
    streams.run(Kind::Frames);
}
