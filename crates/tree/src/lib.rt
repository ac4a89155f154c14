// The question Tree.
#![tactic(auto)]

ghost use Rattle.std.specs.Prelude.{◌≤◌, ◌<◌, length};
ghost use Rattle.checks.specs.Memory.{chart_size, depths_size};
ghost use Rattle.grammar.specs.Checked.{grammar_in};
ghost use Rattle.tree.specs.inner.Sets.{WorkKept};
ghost use Rattle.tree.specs.inner.ShowOutcome.{ShowOutcome};
ghost use Rattle.tree.specs.Outcome.{TreeOutcome};

mod counting; // counting.rt: how many nodes a tree has, up to a limit
mod division; // division.rt: where a rule's symbols can be divided below a depth
mod kept; // kept.rt: the memory that keeps a line's chart and depths
pub mod node; // node.rt: a node, before it becomes bytes, and its bytes
mod search; // search.rt: which rule a node uses, and its children's ends
mod writing; // writing.rt: a tree's nodes as bytes

use chart::work::checked;
use checks::Asked;
use counting::count_nodes;
use filling::rounds::fill;
use grammar::view::Checked;
use kept::{Kept, Span};
use refusals::Refusal;
use search::Search;
use writing::write;

// Counts the nodes of a span, writes them where there is room, and answers how many there are.
fn show(grammar: Checked, kept: Kept, span: Span, out: &mut [u8]) -> Result<usize, Refusal>
    requires category { span.category < grammar.view.sections.categories }
    requires start { span.start ≤ length kept.line.now }
    requires end { span.end ≤ length kept.line.now }
    requires work { WorkKept (grammar_in grammar) kept }
    requires rows { chart_size grammar.view.sections.categories (length kept.line.now) ≤ length kept.words.now }
    requires room { depths_size grammar.view.sections.categories (length kept.line.now) ≤ length kept.depths.now }
    ensures { ShowOutcome (grammar_in grammar.entry) kept.entry.line.now span.category span.start span.end out.old result out.new }
{
    if kept.depth_at(span) == 0 {
        return Err(Refusal::TreeOfNoFact);
    }
    let starts = grammar.rule_starts();
    let search = Search {
        grammar,
        starts: &starts,
        kept,
    };
    let room = out.len() / 4;
    let count = count_nodes(&search, span, room);
    if room < count {
        return Err(Refusal::TreeTooSmall);
    }
    write(&search, span, out);
    Ok(count)
}

// The tree shown for (A, i, j), four bytes for each node, in preorder; how many nodes there are. What it takes comes one by one, as C lends it.
pub fn tree(
    g: &[u8],
    line: &[u8],
    category: usize,
    start: usize,
    end: usize,
    words: &mut [u64],
    depths: &mut [u16],
    out: &mut [u8],
) -> Result<usize, Refusal>
    ensures { TreeOutcome g.now line.now category start end
        words.old depths.old out.old result
        words.new depths.new out.new }
{
    let asked = Asked::Span {
        category,
        start,
        end,
    };
    let grammar = checked(g, line, asked, words.len(), depths.len())?;
    fill(grammar, line, words, depths);
    let kept = Kept {
        line,
        words,
        depths,
    };
    let span = Span {
        category,
        start,
        end,
    };
    show(grammar, kept, span, out)
}
