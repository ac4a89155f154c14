// The questions for C and Rust: an answer is 0 and its values, a refusal its number and its place. A slice's pointer is never null, and the names tell C so.
#![tactic(auto)]

ghost use Rattle.std.specs.Prelude.{◌≡◌, ◌∷◌, []};
ghost use Rattle.refusals.specs.Row.{row_of};
ghost use Rattle.marks.specs.Told.{marks_told};
ghost use Rattle.tree.specs.Told.{tree_told};
ghost use Rattle.forest.specs.Told.{forest_told};
ghost use Rattle.berylskip.specs.Exported.{numbers, handed};
ghost use Rattle.berylskip.specs.Questions.{ChartExported, EndsExported, MarksExported, TreeExported, ForestExported};

use chart::chart;
use forest::{Branch, forest};
use refusals::{Refusal, Row};
use tree::tree;

// A refusal's number; its place is written.
fn refuse(refusal: Refusal, place: &mut usize) -> u8
    ensures { (result ≡ (row_of refusal).number) × (place.new ≡ (row_of refusal).place) }
{
    let row = Row::from(refusal);
    *place = row.place;
    row.number
}

// The number, or the refusal, of an answer of one number, as each of the three questions tells it.
fn hand_count(answer: Result<usize, Refusal>, count: &mut usize, place: &mut usize) -> u8
    ensures marks { handed (marks_told answer) (count.old ∷ []) place.old
        ≡ numbers result (count.new ∷ []) place.new }
    ensures tree { handed (tree_told answer) (count.old ∷ []) place.old
        ≡ numbers result (count.new ∷ []) place.new }
    ensures forest { handed (forest_told answer) (count.old ∷ []) place.old
        ≡ numbers result (count.new ∷ []) place.new }
{
    match answer {
        Err(refusal) => refuse(refusal, place),
        Ok(number) => {
            *count = number;
            0
        }
    }
}

// Chart: rounds, and how many facts there are.
#[unsafe(no_mangle)]
pub extern "C" fn berylskip_chart_nonnull(
    g: &[u8],
    line: &[u8],
    words: &mut [u64],
    depths: &mut [u16],
    rounds: &mut usize,
    facts: &mut usize,
    place: &mut usize,
) -> u8
    ensures { ChartExported g.now line.now
        words.old depths.old (rounds.old ∷ facts.old ∷ []) place.old
        words.new depths.new (numbers result (rounds.new ∷ facts.new ∷ []) place.new) }
{
    match chart(g, line, words, depths) {
        Err(refusal) => refuse(refusal, place),
        Ok(answer) => {
            *rounds = answer.rounds;
            *facts = answer.facts;
            0
        }
    }
}

// Ends of (A, i): the row, how many ends it shows, the smallest and the largest, 255 for both where there is none.
#[unsafe(no_mangle)]
pub extern "C" fn berylskip_ends_nonnull(
    g: &[u8],
    line: &[u8],
    category: usize,
    start: usize,
    words: &mut [u64],
    depths: &mut [u16],
    row: &mut u64,
    ends: &mut u32,
    smallest: &mut u32,
    largest: &mut u32,
    place: &mut usize,
) -> u8
    ensures { EndsExported g.now line.now category start
        words.old depths.old (row.old ∷ ends.old ∷ smallest.old ∷ largest.old ∷ []) place.old
        words.new depths.new (numbers result (row.new ∷ ends.new ∷ smallest.new ∷ largest.new ∷ []) place.new) }
{
    match chart::ends(g, line, category, start, words, depths) {
        Err(refusal) => refuse(refusal, place),
        Ok(answer) => {
            *row = answer.row;
            *ends = answer.ends;
            *smallest = answer.smallest;
            *largest = answer.largest;
            0
        }
    }
}

// Marks: a byte for each token, and how many tokens are secret.
#[unsafe(no_mangle)]
pub extern "C" fn berylskip_marks_nonnull(
    g: &[u8],
    line: &[u8],
    words: &mut [u64],
    depths: &mut [u16],
    marks: &mut [u8],
    secret: &mut usize,
    place: &mut usize,
) -> u8
    ensures { MarksExported g.now line.now
        words.old depths.old marks.old (secret.old ∷ []) place.old
        words.new depths.new marks.new (numbers result (secret.new ∷ []) place.new) }
{
    let answer = marks::marks(g, line, words, depths, marks);
    hand_count(answer, secret, place)
}

// Tree of (A, i, j): four bytes for each node, and how many nodes there are.
#[unsafe(no_mangle)]
pub extern "C" fn berylskip_tree_nonnull(
    g: &[u8],
    line: &[u8],
    category: usize,
    start: usize,
    end: usize,
    words: &mut [u64],
    depths: &mut [u16],
    out: &mut [u8],
    nodes: &mut usize,
    place: &mut usize,
) -> u8
    ensures { TreeExported g.now line.now category start end
        words.old depths.old out.old (nodes.old ∷ []) place.old
        words.new depths.new out.new (numbers result (nodes.new ∷ []) place.new) }
{
    let answer = tree(g, line, category, start, end, words, depths, out);
    hand_count(answer, nodes, place)
}

// Forest: a record for each way in which a prefix of a rule derives, and how many records there are.
#[unsafe(no_mangle)]
pub extern "C" fn berylskip_forest_nonnull(
    g: &[u8],
    line: &[u8],
    words: &mut [u64],
    depths: &mut [u16],
    rows: &mut [Branch],
    records: &mut usize,
    place: &mut usize,
) -> u8
    ensures { ForestExported g.now line.now
        words.old depths.old rows.old (records.old ∷ []) place.old
        words.new depths.new rows.new (numbers result (records.new ∷ []) place.new) }
{
    let answer = forest(g, line, words, depths, rows);
    hand_count(answer, records, place)
}
