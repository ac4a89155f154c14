// The number of records, by counting ones.
ghost use Rattle.std.specs.Prelude.{◌≡◌, ◌≤◌, length};
ghost use Rattle.derivation.specs.computed.Forest.{forest};
ghost use Rattle.grammar.specs.Checked.{grammar_in};
ghost use Rattle.forest.specs.inner.Charted.{RuleStands};
ghost use Rattle.forest.specs.inner.Count.{start_records, place_records, rule_records};

use super::place::{Chart, Place};
use grammar::rules::RuleAt;
use grammar::view::View;

impl Place<'_> {
    // The records of the place and a start.
    fn count_start(&self, start: usize) -> usize
        requires { start ≤ length self.now.chart.now.line.now }
        ensures { result ≡ start_records self.now.chart.now self.now.at self.now.d start }
    {
        let mut records = 0;
        for m in positions::members_of(self.prefix_ends(start)) {
            records += positions::count(self.symbol_ends(m)) as usize;
        }
        records
    }

    // The records of the place.
    fn count(&self) -> usize
        ensures { result ≡ place_records self.now.chart.now self.now.at self.now.d }
    {
        let mut records = 0;
        for start in 0..=self.chart.line.len() {
            records += self.count_start(start);
        }
        records
    }
}

impl Chart<'_> {
    // The records of the rule that stands at a position.
    fn count_rule(&self, rule: usize, at: usize) -> usize
        requires { RuleStands self.now.grammar rule at }
        ensures { result ≡ rule_records self.now at }
    {
        let mut records = 0;
        let here = RuleAt {
            bytes: self.grammar.view.bytes,
            at,
        };
        for d in 0..here.length() {
            let place = Place {
                chart: &*self,
                rule,
                at,
                d,
            };
            records += place.count();
        }
        records
    }

    // All records of the line.
    pub fn count_records(&self) -> usize
        ensures { result ≡ length (forest (grammar_in self.now.grammar) self.now.line.now) }
    {
        let View { bytes, sections } = self.grammar.view;
        let mut at = sections.first;
        let mut records = 0;
        for rule in 0..sections.rules {
            records += self.count_rule(rule, at);
            at = RuleAt { bytes, at }.after();
        }
        records
    }
}
