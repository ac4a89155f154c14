// What the program prints of a job, piece by piece.
#![tactic(auto)]

ghost use Rattle.std.specs.Prelude.{◌≡◌, ◌*◌, ◌/◌, ◌<◌, ◌≤◌, length, ◌∷◌, [], take, drop, MatchOption};
ghost use Rattle.refusals.specs.Row.{row_of};
ghost use Rattle.report.specs.Job.{questions_of};
ghost use Rattle.report.specs.Printed.{refused_line, answer_pieces, chart_pieces, pieces};
ghost use Rattle.report.specs.Yielded.{Yielded};

pub mod job; // job.rt: reads a job's three sections
mod sections; // sections.rt: writes the chart's lines, the marks, a question

use chart::work::checked;
use checks::Asked;
use job::read_job;
use lines::writing::Page;
use refusals::Refusal;
use sections::{CheckedJob, write_tree};

// How long a piece is, and whether another follows, which its length does not say.
#[derive(Clone, Copy)]
pub struct Piece {
    pub length: usize,
    pub more: bool,
}

// A refusal is the only piece. Here and below number and row are those of `write_piece`, as it is handed them.
fn refused_piece(refusal: Refusal, number: usize, out: &mut [u8]) -> Piece
    requires { 475200 ≤ length out.old }
    ensures { Yielded (refused_line (row_of refusal) ∷ []) number out.old out.new result }
{
    if number != 0 {
        return Piece {
            length: 0,
            more: false,
        };
    }
    let mut page = Page { row: out, at: 0 };
    sections::refused_line(&mut page, refusal);
    Piece {
        length: page.at,
        more: false,
    }
}

// Question `k` of bytes that hold three for each.
fn question(questions: &[u8], k: usize) -> Option<&[u8]>
    ensures { MatchOption result
        (length questions.now / 3 ≤ k)
        (λ q. (k < length questions.now / 3) × (q.now ≡ take 3 (drop (3 * k) questions.now))) }
{
    questions.chunks_exact(3).nth(k)
}

// A piece of the answers: the chart's, the marks', a question's. Which one is asked for by number, as of `write_piece`.
fn answer_piece(job: CheckedJob, questions: &[u8], number: usize, out: &mut [u8]) -> Piece
    requires { 475200 ≤ length out.old }
    ensures { Yielded
        (answer_pieces job.entry.grammar.view.bytes.now job.entry.line.now (questions_of questions.now)) number
        out.old out.new result }
{
    let length = match number {
        0 => job.write_chart(out),
        1 => job.write_marked(out),
        _ => match question(questions, number - 2) {
            Some(asked) => {
                let bytes = job.grammar.view.bytes;
                write_tree(bytes, job.line, asked[0], asked[1], asked[2], out)
            }
            None => 0,
        },
    };
    let more = number <= questions.len() / 3;
    Piece { length, more }
}

// A piece of a job that was read: the chart's refusal alone, or else the answers.
fn job_piece(g: &[u8], line: &[u8], questions: &[u8], number: usize, out: &mut [u8]) -> Piece
    requires { 475200 ≤ length out.old }
    ensures { Yielded
        (chart_pieces g.now line.now (questions_of questions.now)) number
        out.old out.new result }
{
    match checked(g, line, Asked::Nothing, 512, 16384) {
        Err(refusal) => refused_piece(refusal, number, out),
        Ok(grammar) => answer_piece(CheckedJob { grammar, line }, questions, number, out),
    }
}

// Writes piece `number` of what is printed for the input.
// A longer row does as well (docs/CONTRACTS.md), so `out` is a slice and no array, here and in what is called: an array there would need an arm that is never reached.
pub fn write_piece(input: &[u8], number: usize, out: &mut [u8]) -> Piece
    requires { 475200 ≤ length out.old }
    ensures { Yielded (pieces input.now) number out.old out.new result }
{
    match read_job(input) {
        Err(refusal) => refused_piece(refusal, number, out),
        Ok(job) => {
            let line_at = 3 + job.grammar;
            let line_end = line_at + job.line;
            let questions_at = line_end + 1;
            let grammar_end = line_at - 1;
            job_piece(
                &input[2..grammar_end],
                &input[line_at..line_end],
                &input[questions_at..],
                number,
                out,
            )
        }
    }
}
