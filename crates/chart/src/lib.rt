// The questions Chart and Ends.
#![tactic(auto)]

ghost use Rattle.chart.specs.ChartOutcome.{ChartOutcome};
ghost use Rattle.chart.specs.EndsOutcome.{EndsOutcome};

pub mod work; // work.rt: what every question checks and counts

use checks::Asked;
use filling::rounds::fill;
use refusals::Refusal;

// What the chart question answers.
#[derive(Clone, Copy)]
pub struct ChartAnswer {
    pub rounds: usize,
    pub facts: usize,
}

// What the question of the ends of (A, i) answers: the row, how many ends it shows, the smallest and the largest.
// Where there is none both are positions::NO_END, as the document and the exported functions answer.
#[derive(Clone, Copy)]
pub struct EndsAnswer {
    pub row: u64,
    pub ends: u32,
    pub smallest: u32,
    pub largest: u32,
}

// Fills the work memory with every fact of every category, and its depth.
// Here and in every question grammar, line and memory are lent one by one, as C lends them.
pub fn chart(
    g: &[u8],
    line: &[u8],
    words: &mut [u64],
    depths: &mut [u16],
) -> Result<ChartAnswer, Refusal>
    ensures { ChartOutcome g.now line.now
        words.old depths.old result
        words.new depths.new }
{
    let grammar = work::checked(g, line, Asked::Nothing, words.len(), depths.len())?;
    let rounds = fill(grammar, line, words, depths);
    let rows = grammar.view.sections.categories * (line.len() + 1);
    let facts = work::count_ends(&words[..rows]);
    Ok(ChartAnswer { rounds, facts })
}

// The ends of the category's spans from a start.
pub fn ends(
    g: &[u8],
    line: &[u8],
    category: usize,
    start: usize,
    words: &mut [u64],
    depths: &mut [u16],
) -> Result<EndsAnswer, Refusal>
    ensures { EndsOutcome g.now line.now category start
        words.old depths.old result
        words.new depths.new }
{
    let asked = Asked::Start { category, start };
    let grammar = work::checked(g, line, asked, words.len(), depths.len())?;
    fill(grammar, line, words, depths);
    let row = words[category * (line.len() + 1) + start];
    let both = positions::both_ends(row);
    Ok(EndsAnswer {
        row,
        ends: positions::count(row),
        smallest: both.smallest,
        largest: both.largest,
    })
}
