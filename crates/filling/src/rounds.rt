// Rounds over the rules, until one adds nothing.
ghost use Rattle.std.specs.Prelude.{◌≡◌, ℕ, ◌+◌, ◌*◌, ◌^◌, ◌≤◌, ◌<◌, length, get_or, map};
ghost use Rattle.checks.specs.Line.{IsLine};
ghost use Rattle.checks.specs.Memory.{chart_size, depths_size};
ghost use Rattle.grammar.specs.Checked.{grammar_in};
ghost use Rattle.grammar.specs.inner.Starts.{Starts};
ghost use Rattle.filling.specs.inner.Round.{RulesApplied};
ghost use Rattle.filling.specs.Filled.{Filled};

use super::commit::Round;
use super::prefix::Chart;
use super::tables::{NO_CATEGORY, Rules, class_places};
use grammar::rules::RuleAt;
use grammar::view::{Checked, View};

// One round: next gains what the rules derive of which something on the right side has changed.
#[tactic(auto, using(crate::proofs::TableLaws::rules_few))]
fn apply_rules(rules: &Rules<'_>, changed: u64, chart: &Chart<'_>, next: &mut [u64; 2048])
    requires { rules.now.grammar.view.sections.categories * chart.now.width ≤ length chart.now.words.now }
    ensures { RulesApplied (grammar_in rules.now.grammar) (map (λ r. r.mask) rules.now.table) changed
        chart.now.words.now chart.now.places.now chart.now.width next.old
        next.new }
{
    let View { bytes, sections } = rules.grammar.view;
    for entry in &rules.table[..sections.rules] {
        if entry.mask & changed != 0 {
            let rule = RuleAt {
                bytes,
                at: entry.at,
            };
            chart.apply(rule.left() as usize, rule.symbols(), next);
        }
    }
}

// The chart and the depths of a line, and the greatest depth.
pub fn fill(grammar: Checked, line: &[u8], words: &mut [u64], depths: &mut [u16]) -> usize
    requires { IsLine grammar.view.sections.classes line.now
        × (chart_size grammar.view.sections.categories (length line.now) ≤ length words.old)
        × (depths_size grammar.view.sections.categories (length line.now) ≤ length depths.old) }
    ensures { Filled (grammar_in grammar.entry) line.now
        words.old depths.old
        words.new depths.new result }
{
    let categories = grammar.view.sections.categories;
    let width = line.len() + 1;
    let rows = categories * width;
    words[..rows].fill(0);
    depths[..rows * width].fill(0);
    let rules = Rules::new(grammar);
    let places = class_places(line);
    let mut next = [0u64; 2048];
    let mut changed = positions::insert(0, NO_CATEGORY);
    let mut depth = 0u16;
    while changed != 0 {
        depth += 1;
        let chart = Chart {
            words,
            places: &places,
            width,
        };
        apply_rules(&rules, changed, &chart, &mut next);
        let round = Round {
            next: &next,
            width,
            depth,
        };
        changed = round.commit(words, depths, categories);
    }
    depth as usize - 1
}
