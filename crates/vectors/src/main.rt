// Runs jobs that are written in decimal, a line of standard input each, and prints what they lead to; a line that begins with # is printed as it is.
#![tactic(auto)]

use printing::{JOB, PIECE, print, room};

// The longest text that is run.
const TEXT: usize = 65536;

// Room for it and for one byte more, so that a longer one is seen to be.
const TEXT_ROOM: usize = TEXT + 1;

// The byte that decimal digits write, where it is one.
fn byte_of(digits: &[u8]) -> Option<u8> {
    str::from_utf8(digits).ok()?.parse().ok()
}

// The numbers of a line as bytes, as many as have room; none where one of its numbers is no byte.
fn read_bytes<'a>(line: &[u8], room: &'a mut [u8]) -> Option<&'a [u8]> {
    let mut count = 0;
    for (k, digits) in line
        .split(|byte| !byte.is_ascii_digit())
        .filter(|digits| !digits.is_empty())
        .enumerate()
    {
        let byte = byte_of(digits)?;
        if let Some(place) = room.get_mut(k) {
            *place = byte;
            count = k + 1;
        }
    }
    Some(&room[..count])
}

// Runs a line.
fn run_line(line: &[u8], job: &mut [u8; JOB], out: &mut [u8; PIECE]) {
    if line.starts_with(b"#") {
        io::write_all(1, line);
        io::write_all(1, b"\n");
        return;
    }
    match read_bytes(line, job) {
        None => {
            io::write_all(1, b"not run: a number of this line is above 255\n");
        }
        Some(job) => {
            let _ = print(job, out);
        }
    }
}

// Runs every line.
fn run(text: &[u8], job: &mut [u8; JOB], out: &mut [u8; PIECE]) {
    for line in text.split_inclusive(|byte| *byte == b'\n') {
        let line = match line {
            [before @ .., b'\n'] => before,
            _ => line,
        };
        run_line(line, job, out);
    }
}

fn main() {
    let mut text = room::<TEXT_ROOM>();
    let mut job = room::<JOB>();
    let mut out = room::<PIECE>();
    let length = io::read_full(0, &mut text);
    if TEXT < length {
        io::write_all(1, b"not run: the input is longer than 65536 bytes\n");
        return;
    }
    run(&text[..length], &mut job, &mut out);
}
