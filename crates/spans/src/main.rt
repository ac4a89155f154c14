// Reads a job from standard input and prints what it leads to; where a write fails, standard error is told so.
#![tactic(auto)]

use printing::{JOB, PIECE, print, room};

fn main() {
    let mut input = room::<JOB>();
    let mut out = room::<PIECE>();
    let length = io::read_full(0, &mut input);
    if print(&input[..length], &mut out).is_err() {
        io::write_all(2, b"spans: a write failed, so the output is not whole\n");
    }
}
