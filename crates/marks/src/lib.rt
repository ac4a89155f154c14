// The question Marks.
#![tactic(auto)]

ghost use Rattle.std.specs.Prelude.{◌*◌, ◌≤◌, ◌<◌, length};
ghost use Rattle.checks.specs.Line.{IsLine};
ghost use Rattle.grammar.specs.Checked.{grammar_in};
ghost use Rattle.marks.specs.Marks.{MarksAre};
ghost use Rattle.marks.specs.inner.Reach.{ChartHolds, RowReachIs, ReachIs};
ghost use Rattle.marks.specs.Outcome.{MarksOutcome};

use chart::work::checked;
use checks::Asked;
use filling::rounds::fill;
use grammar::view::Checked;
use refusals::Refusal;

// How far the ends of a row reach, or `far` where that is further.
fn reach_of(row: u64, far: usize) -> usize
    ensures { RowReachIs row far result }
{
    if row == 0 {
        return far;
    }
    far.max(positions::last(row) as usize)
}

// How far the spans of secret categories reach that begin at the start, or `far` where that is further.
fn reach_from(grammar: Checked, words: &[u64], width: usize, start: usize, far: usize) -> usize
    requires { (grammar.view.sections.categories * width ≤ length words.now) × (start < width) × (width ≤ 64) }
    ensures { ReachIs (grammar_in grammar.entry) words.now width start far result }
{
    let mut reach = far;
    for a in 0..grammar.view.sections.categories {
        if grammar.category_flag(a) == 1 {
            reach = reach_of(words[a * width + start], reach);
        }
    }
    reach
}

// A byte for each token, 1 secret and 0 not; how many are 1.
fn mark_tokens(grammar: Checked, line: &[u8], words: &[u64], marks: &mut [u8]) -> usize
    requires { IsLine grammar.view.sections.classes line.now
        × ChartHolds (grammar_in grammar) line.now words.now
        × (length line.now ≤ length marks.old) }
    ensures { MarksAre (grammar_in grammar.entry) line.now marks.old marks.new result }
{
    let width = line.len() + 1;
    let mut secret = 0;
    let mut reach = 0;
    for (token, class) in line.iter().enumerate() {
        reach = reach_from(grammar, words, width, token, reach);
        let mark = if token < reach {
            1
        } else {
            grammar.class_flag(*class as usize)
        };
        marks[token] = mark;
        secret += mark as usize;
    }
    secret
}

// Marks the secret tokens of a line, and answers how many there are. What it takes comes one by one, as C lends it.
pub fn marks(
    g: &[u8],
    line: &[u8],
    words: &mut [u64],
    depths: &mut [u16],
    marks: &mut [u8],
) -> Result<usize, Refusal>
    ensures { MarksOutcome g.now line.now
        words.old depths.old marks.old result
        words.new depths.new marks.new }
{
    let grammar = checked(g, line, Asked::Nothing, words.len(), depths.len())?;
    fill(grammar, line, words, depths);
    if marks.len() < line.len() {
        return Err(Refusal::MarksTooSmall { needed: line.len() });
    }
    Ok(mark_tokens(grammar, line, words, marks))
}
