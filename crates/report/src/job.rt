// Reads a job: the grammar, the line and the questions, each after its count.
ghost use Rattle.std.specs.Prelude.{◌≡◌, cond, ltb, Err, Ok};
ghost use Rattle.refusals.specs.declared.Refusal.TheVariants.{JobBadlyFormed};
ghost use Rattle.report.specs.Job.{job_of};

use refusals::Refusal;

// How many grammar bytes, tokens and questions a job has, as `job_of` tells them. The grammar stands at 2, the line at 3 + grammar, and the questions at 4 + grammar + line.
#[derive(Clone, Copy)]
pub struct Job {
    pub grammar: usize,
    pub line: usize,
    pub questions: usize,
}

// A job of so many bytes ends early where a section ends past them.
fn unless_short(length: usize, end: usize) -> Result<(), Refusal>
    ensures { result ≡ cond (ltb length end) (Err (JobBadlyFormed length)) (Ok tt) }
{
    if length < end {
        return Err(Refusal::JobBadlyFormed { at: length });
    }
    Ok(())
}

#[tactic(auto, unfolding(crate::specs::Job::job_of))]
pub fn read_job(input: &[u8]) -> Result<Job, Refusal>
    ensures { result ≡ job_of input.now }
{
    let length = input.len();
    if 4096 < length {
        return Err(Refusal::JobBadlyFormed { at: 4096 });
    }
    unless_short(length, 2)?;
    let grammar = u16::from_le_bytes([input[0], input[1]]) as usize;
    unless_short(length, 3 + grammar)?;
    let line = input[2 + grammar] as usize;
    unless_short(length, 4 + grammar + line)?;
    let questions = input[3 + grammar + line] as usize;
    let end = 4 + grammar + line + 3 * questions;
    unless_short(length, end)?;
    if end < length {
        return Err(Refusal::JobBadlyFormed { at: end });
    }
    Ok(Job {
        grammar,
        line,
        questions,
    })
}
