// What the programs say of a read or a write that failed: in a line what failed, as the caller names it, and the system's reason.
#![tactic(auto)]

use std::fmt::InlineText;
use std::io;
use std::io::Write;

// Behind the system's text `io::Error` prints the error's number, in brackets. A reader has no use for it.
const NUMBER: &str = " (os error ";

// What `to` does not take is lost: there is nothing left to say it on.
pub fn say<W: Write>(to: &mut W, what: &[u8], error: io::Error) {
    let text = InlineText::<128>::of(error);
    let all = text.as_str();
    let reason = match all.split_once(NUMBER) {
        Some((reason, _)) => reason,
        None => all,
    };
    let _ = to.write_all(what);
    let _ = writeln!(to, ": {reason}");
}
