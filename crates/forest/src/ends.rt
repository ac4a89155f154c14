// Where the symbol of a place, and where the symbols before it, can end, by a filled chart.
ghost use Rattle.std.specs.Prelude.{ℕ, ◌≤◌, length};
ghost use Rattle.positions.specs.Member.{Member};
ghost use Rattle.forest.specs.inner.Ends.{SymbolEnds, StepEnds, PrefixEnds};

use super::place::Place;
use grammar::rules::RuleAt;

impl Place<'_> {
    // The ends of the symbol from m.
    pub fn symbol_ends(&self, m: usize) -> u64
        requires { m ≤ length self.now.chart.now.line.now }
        ensures { SymbolEnds self.now.chart.now self.now.at self.now.d m result }
    {
        let chart = self.chart;
        let n = chart.line.len();
        let here = RuleAt {
            bytes: chart.grammar.view.bytes,
            at: self.at,
        };
        let symbols = here.symbols();
        let symbol = symbols[self.d] as usize;
        if 128 <= symbol {
            return chart.words[(symbol - 128) * (n + 1) + m];
        }
        if n <= m {
            return 0;
        }
        if chart.line[m] as usize != symbol {
            return 0;
        }
        positions::insert(0, m + 1)
    }

    // The ends of the symbol from the positions of a set.
    fn step_ends(&self, set: u64) -> u64
        requires { (m : ℕ) → Member set m → m ≤ length self.now.chart.now.line.now }
        ensures { StepEnds self.now.chart.now self.now.at self.now.d set result }
    {
        let mut all = 0;
        for m in positions::members_of(set) {
            all |= self.symbol_ends(m);
        }
        all
    }

    // The ends of the symbols before it, from a start.
    pub fn prefix_ends(&self, start: usize) -> u64
        requires { start ≤ length self.now.chart.now.line.now }
        ensures { PrefixEnds self.now.chart.now self.now.at self.now.d start result }
    {
        let mut ends = positions::insert(0, start);
        for d in 0..self.d {
            if ends == 0 {
                return 0;
            }
            let before = Place {
                chart: self.chart,
                rule: self.rule,
                at: self.at,
                d,
            };
            ends = before.step_ends(ends);
        }
        ends
    }
}
