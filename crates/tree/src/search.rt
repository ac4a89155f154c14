// The search at a node: the lowest-numbered rule of its category for which some division serves, and the first of its divisions.
ghost use Rattle.grammar.specs.Checked.{grammar_in};
ghost use Rattle.tree.specs.inner.Searchable.{Ready};
ghost use Rattle.tree.specs.inner.Searched.{Searched};

use super::division::Below;
use super::kept::{Kept, Span};
use grammar::rules::RuleAt;
use grammar::view::Checked;

// What is searched: a grammar, where each of its rules stands in its bytes, and what is kept of a line. That it may be searched is no field: `Ready` says it with what each contract needs of the span.
#[derive(Clone, Copy)]
pub struct Search<'a> {
    pub grammar: Checked<'a>,
    pub starts: &'a [usize; 128],
    pub kept: Kept<'a>,
}

// A rule, its symbols and their division: the start of the first symbol, then the end of each.
#[derive(Clone, Copy)]
pub struct Found<'a> {
    pub rule: usize,
    pub symbols: &'a [u8],
    pub ends: [usize; 9],
}

impl<'a> Search<'a> {
    // The rule and the division of a fact: so some rule serves.
    pub fn node(&self, span: Span) -> Found<'a>
        requires { Ready self.now span }
        ensures { Searched (grammar_in self.now.grammar) self.now.kept.line.now span result }
    {
        let below = Below {
            kept: self.kept,
            h: self.kept.depth_at(span) - 1,
        };
        let bytes = self.grammar.view.bytes;
        'search: {
            'rules: for (number, &at) in self.starts.iter().enumerate() {
                let rule = RuleAt { bytes, at };
                if !self.kept.may_serve(rule, span) {
                    continue 'rules;
                }
                let symbols = rule.symbols();
                let sets = below.sets_before(symbols, span.start, span.end);
                let mut ends = [span.start; 9];
                let mut m = span.start;
                for (d, &symbol) in symbols.iter().enumerate() {
                    match below.first_end(symbol as usize, sets[d + 1], m) {
                        Some(e) => m = e,
                        None => continue 'rules,
                    }
                    ends[d + 1] = m;
                }
                break 'search Found {
                    rule: number,
                    symbols,
                    ends,
                };
            }
            unreachable!()
        }
    }
}
