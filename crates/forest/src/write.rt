// Writes the records in place, ascending.
ghost use Rattle.std.specs.Prelude.{◌≡◌, ◌≤◌, length};
ghost use Rattle.forest.specs.inner.Charted.{RuleStands};
ghost use Rattle.forest.specs.inner.Ends.{Reached};
ghost use Rattle.forest.specs.inner.Writing.{middle_rows, start_rows, place_rows, rule_rows, all_rows, Front};

use super::Branch;
use super::place::{Chart, Place};
use grammar::rules::RuleAt;
use grammar::view::View;

impl Place<'_> {
    // Writes the records of the place, a start and a middle at the front of the row, and says how many they are.
    fn write_middle(&self, start: usize, middle: usize, rows: &mut [Branch]) -> usize
        requires reached { Reached self.now.chart.now self.now.at self.now.d start middle }
        requires room { length (middle_rows self.now.chart.now self.now.rule self.now.d start middle) ≤ length rows.old }
        ensures { Front (middle_rows self.now.chart.now self.now.rule self.now.d start middle) rows.old rows.new result }
    {
        let ends = self.symbol_ends(middle);
        for (written, end) in positions::members_of(ends).enumerate() {
            rows[written] = Branch {
                rule: self.rule as u8,
                place: (self.d + 1) as u8,
                start: start as u8,
                middle: middle as u8,
                end: end as u8,
            };
        }
        positions::count(ends) as usize
    }

    // The same of the place and a start.
    fn write_start(&self, start: usize, rows: &mut [Branch]) -> usize
        requires inside { start ≤ length self.now.chart.now.line.now }
        requires room { length (start_rows self.now.chart.now self.now.rule self.now.d start) ≤ length rows.old }
        ensures { Front (start_rows self.now.chart.now self.now.rule self.now.d start) rows.old rows.new result }
    {
        let mut written = 0;
        for middle in positions::members_of(self.prefix_ends(start)) {
            written += self.write_middle(start, middle, &mut rows[written..]);
        }
        written
    }

    // The same of the place.
    fn write(&self, rows: &mut [Branch]) -> usize
        requires { length (place_rows self.now.chart.now self.now.rule self.now.d) ≤ length rows.old }
        ensures { Front (place_rows self.now.chart.now self.now.rule self.now.d) rows.old rows.new result }
    {
        let mut written = 0;
        for start in 0..=self.chart.line.len() {
            written += self.write_start(start, &mut rows[written..]);
        }
        written
    }
}

impl Chart<'_> {
    // The same of the rule that stands at a position.
    fn write_rule(&self, rule: usize, at: usize, rows: &mut [Branch]) -> usize
        requires stands { RuleStands self.now.grammar rule at }
        requires room { length (rule_rows self.now rule) ≤ length rows.old }
        ensures { Front (rule_rows self.now rule) rows.old rows.new result }
    {
        let mut written = 0;
        let here = RuleAt {
            bytes: self.grammar.view.bytes,
            at,
        };
        for d in 0..here.length() {
            let place = Place {
                chart: &*self,
                rule,
                at,
                d,
            };
            written += place.write(&mut rows[written..]);
        }
        written
    }

    // The same of the line: all records.
    pub fn write_records(&self, rows: &mut [Branch]) -> usize
        requires { length (all_rows self.now) ≤ length rows.old }
        ensures { Front (all_rows self.now) rows.old rows.new result }
    {
        let View { bytes, sections } = self.grammar.view;
        let mut at = sections.first;
        let mut written = 0;
        for rule in 0..sections.rules {
            written += self.write_rule(rule, at, &mut rows[written..]);
            at = RuleAt { bytes, at }.after();
        }
        written
    }
}
