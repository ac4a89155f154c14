// Prints what a job leads to.
#![tactic(auto)]

ghost use Rattle.std.specs.Prelude.{◌≡◌, ⊤, true, [], ◌+◌, ◌≤◌, ◌<◌, length, get_or, ltb, replicate, MatchResult};
ghost use Rattle.tree.specs.Bytes.{wrote};
ghost use Rattle.report.specs.Printed.{pieces};
ghost use Rattle.printing.specs.Ended.{Ended};

use report::{Piece, write_piece};

// Room for a piece.
pub const PIECE: usize = 475200;

// Room for a job, and for one byte more, so that a longer one is seen to be.
pub const JOB: usize = 4097;

// How many pieces were asked for, whether each of them was written, which `print_next` asks of what it is handed, and whether another follows them,
// which their number does not say.
#[derive(Clone, Copy)]
struct Progress {
    asked: usize,
    written: bool,
    more: bool,
}

// The number of a piece that could not be written, and whether another follows it, which its number does not say.
#[derive(Clone, Copy)]
pub struct Unwritten {
    pub number: usize,
    pub more: bool,
}

// Room for so many bytes: zeros.
pub fn room<const N: usize>() -> [u8; N]
    ensures long { N ≡ length result }
    ensures zeros { result ≡ replicate N 0 }
{
    [0; N]
}

// Asks for the next piece and writes it: only where there is one, and those before it were written.
fn print_next(input: &[u8], progress: Progress, out: &mut [u8]) -> Result<Progress, Unwritten>
    requires in_bounds { 475200 ≤ length out.old }
    requires asked_in_bounds { progress.asked < length (pieces input.now) }
    requires written_value { progress.written ≡ true }
    ensures asked_value { MatchResult result (λ next. next.asked ≡ progress.asked + 1) (λ end. end.number ≡ progress.asked) }
    ensures more_value { let more = ltb (progress.asked + 1) (length (pieces input.now)) in
        MatchResult result (λ next. next.more ≡ more) (λ end. end.more ≡ more) }
    ensures written_after { MatchResult result (λ next. next.written ≡ true) (λ end. ⊤) }
    ensures out_after { out.new ≡ wrote out.old 0 (get_or (pieces input.now) progress.asked []) }
{
    let number = progress.asked;
    let Piece { length, more } = write_piece(input, number, out);
    let written = io::write_all(1, &out[..length]);
    if !written {
        return Err(Unwritten { number, more });
    }
    Ok(Progress {
        asked: number + 1,
        written,
        more,
    })
}

// Prints the pieces, one after the other, and answers how many they are, or which of them could not be written.
// A longer row does as well (docs/CONTRACTS.md), so `out` is a slice and no array, here and in `print_next`.
pub fn print(input: &[u8], out: &mut [u8]) -> Result<usize, Unwritten>
    requires { 475200 ≤ length out.old }
    ensures { Ended input.now out.old out.new result }
{
    let mut progress = Progress {
        asked: 0,
        written: true,
        more: true,
    };
    while progress.more {
        progress = print_next(input, progress, out)?;
    }
    Ok(progress.asked)
}
