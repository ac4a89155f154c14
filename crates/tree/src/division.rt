// Where a rule's symbols can be divided, over the rows and depths kept in memory: a category may be a child with a depth of at most h.
ghost use Rattle.std.specs.Prelude.{◌≡◌, ℕ, ◌+◌, ◌≤◌, ◌<◌, length, get_or};
ghost use Rattle.positions.specs.Member.{Member};
ghost use Rattle.grammar.specs.Value.{standing};
ghost use Rattle.tree.specs.inner.Kept.{RowsFit, Fits};
ghost use Rattle.tree.specs.inner.Sets.{FirstThat, FirstEnd, ClassBefore, StartsBefore, Sets, MayServe};

use super::kept::{Kept, Span};
use grammar::rules::RuleAt;

// What is kept of a line's facts, as far as their depth is at most h.
#[derive(Clone, Copy)]
pub struct Below<'a> {
    pub kept: Kept<'a>,
    pub h: u16,
}

impl<'a> Below<'a> {
    // The first of some ends whose depth, in the depths from a row on, is at most h.
    fn shallow_end(&self, depths: &[u16], ends: u64) -> Option<usize>
        requires { (e : ℕ) → Member ends e → e < length depths.now }
        ensures { FirstThat (λ e. Member ends e × (get_or depths.now e 0 ≤ self.now.h)) result }
    {
        for e in positions::members_of(ends) {
            if depths[e] <= self.h {
                return Some(e);
            }
        }
        None
    }

    // The first end of a symbol from a start that is in the set; a class ends after its token.
    pub fn first_end(&self, symbol: usize, set: u64, start: usize) -> Option<usize>
        requires start { start ≤ length self.now.kept.line.now }
        requires inside { (e : ℕ) → Member set e → e ≤ length self.now.kept.line.now }
        requires fits { Fits self.now.kept symbol }
        ensures { FirstEnd self.now symbol set start result }
    {
        let Kept {
            line,
            words,
            depths,
        } = self.kept;
        if 128 <= symbol {
            let width = line.len() + 1;
            let row = (symbol - 128) * width + start;
            return self.shallow_end(&depths[row * width..], words[row] & set);
        }
        let next = start + 1;
        if start < line.len() && line[start] as usize == symbol && positions::member(set, next) {
            return Some(next);
        }
        None
    }

    // The positions from a start on from which a symbol has an end in the set, which has none past `end`.
    fn starts_before(&self, symbol: usize, set: u64, start: usize, end: usize) -> u64
        requires end { end ≤ length self.now.kept.line.now }
        requires inside { (e : ℕ) → Member set e → e ≤ end }
        requires fits { Fits self.now.kept symbol }
        ensures { StartsBefore self.now symbol set start end result }
    {
        if symbol < 128 {
            return self.kept.class_starts(symbol, set, start);
        }
        let mut starts = 0u64;
        for m in start..=end {
            if self.first_end(symbol, set, m).is_some() {
                starts = positions::insert(starts, m);
            }
        }
        starts
    }

    // For each of a rule's symbols but the first, the positions from a start on from which it and those after it reach `end`; from the right, one word each, up to one that is empty.
    pub fn sets_before(&self, symbols: &[u8], start: usize, end: usize) -> [u64; 9]
        requires rises { start ≤ end }
        requires end { end ≤ length self.now.kept.line.now }
        requires few { length symbols.now ≤ 8 }
        requires fit { (d : ℕ) → d < length symbols.now → Fits self.now.kept (get_or symbols.now d 0) }
        ensures { Sets self.now symbols.now start end result }
    {
        let mut sets = [0u64; 9];
        let mut set = positions::insert(0, end);
        sets[symbols.len()] = set;
        for d in (1..symbols.len()).rev() {
            if set == 0 {
                return sets;
            }
            set = self.starts_before(symbols[d] as usize, set, start, end);
            sets[d] = set;
        }
        sets
    }
}

impl<'a> Kept<'a> {
    // The positions from a start on at which the line has a class, and after which the next is in the set.
    fn class_starts(&self, class: usize, set: u64, start: usize) -> u64
        requires { (e : ℕ) → Member set e → e ≤ length self.now.line.now }
        ensures { ClassBefore self.now.line.now class set start result }
    {
        let mut starts = 0u64;
        for e in positions::members_of(set) {
            if start < e && self.line[e - 1] as usize == class {
                starts = positions::insert(starts, e - 1);
            }
        }
        starts
    }

    // Whether a rule may serve: it is of the category, and its first symbol has some end; one without symbols serves where the span is empty.
    pub fn may_serve(&self, rule: RuleAt, span: Span) -> bool
        requires start { span.start ≤ length self.now.line.now }
        requires fits { 0 < length (standing rule.bytes.now rule.at).right → RowsFit self.now (get_or (standing rule.bytes.now rule.at).right 0 0) }
        ensures { MayServe self.now (standing rule.entry.bytes.now rule.entry.at) span result }
    {
        if rule.left() as usize != span.category {
            return false;
        }
        let start = span.start;
        match rule.symbols().first() {
            None => start == span.end,
            Some(&class) if class < 128 => start < self.line.len() && self.line[start] == class,
            Some(&symbol) => {
                let row = (symbol as usize - 128) * (self.line.len() + 1) + start;
                self.words[row] != 0
            }
        }
    }
}
