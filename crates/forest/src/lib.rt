// The question Forest.
#![tactic(auto)]

ghost use Rattle.forest.specs.Outcome.{ForestOutcome};

mod place; // place.rt: what the records are read from
mod ends; // ends.rt: where a place's symbol and the symbols before it can end
mod count; // count.rt: the number of records
mod write; // write.rt: the records, in place

use chart::work::checked;
use checks::Asked;
use filling::rounds::fill;
use place::Chart;
use refusals::Refusal;

// A record of the forest: the first place - 1 symbols of the rule derive start..middle and the symbol at the place derives middle..end.
#[repr(C)]
#[derive(Clone, Copy)]
pub struct Branch {
    pub rule: u8,
    pub place: u8,
    pub start: u8,
    pub middle: u8,
    pub end: u8,
}

// Writes the records (p, d, i, m, j) of the line, ascending, each once, into the lent row, and answers how many they are. What it takes comes one by one, as C lends it.
pub fn forest(
    g: &[u8],
    line: &[u8],
    words: &mut [u64],
    depths: &mut [u16],
    rows: &mut [Branch],
) -> Result<usize, Refusal>
    ensures { ForestOutcome g.now line.now
        words.old depths.old rows.old result
        words.new depths.new rows.new }
{
    let grammar = checked(g, line, Asked::Nothing, words.len(), depths.len())?;
    fill(grammar, line, words, depths);
    let chart = Chart {
        grammar,
        line,
        words,
    };
    let count = chart.count_records();
    if rows.len() < count {
        return Err(Refusal::ForestTooSmall { needed: count });
    }
    Ok(chart.write_records(rows))
}
