// Reads grammar bytes: three sections, each after its one-byte count. Every input is accepted with its counts and offsets,
// or refused with the first fault in reading order.
ghost use Rattle.std.specs.Prelude.{◌≡◌, [], ◌+◌, ◌≤◌, ◌<◌, length, take, drop, MatchResult};
ghost use Rattle.grammar.specs.Standing.{byte, standing};
ghost use Rattle.grammar.specs.inner.Words.{word_of, with_word};
ghost use Rattle.grammar.specs.Reading.{
  is_symbol,
  flags_from,
  symbols_from,
  rule_from,
  rules_from,
  flags_section,
  rules_section,
  sections_of,
  read_of,
};

use super::chains::Chains;
use refusals::Refusal;

// The three counts, where the category flags and rule 0 begin, and the end of the last rule. Class flags begin at 1.
#[derive(Clone, Copy)]
pub struct Sections {
    pub classes: usize,
    pub categories: usize,
    pub rules: usize,
    pub flags: usize,
    pub first: usize,
    pub end: usize,
}

// Where the bytes of a rule that was passed over end, and its symbols as one word.
#[derive(Clone, Copy)]
pub struct PassedRule {
    pub next: usize,
    pub word: u64,
}

// The byte at a position; none stands past the end.
fn byte_at(g: &[u8], at: usize) -> Result<u8, Refusal>
    ensures { MatchResult result (λ b. (at < length g.now) × (b ≡ byte g.now at)) (λ r. (length g.now ≤ at) × (r ≡ Refusal.GrammarEndsEarly (length g.now))) }
{
    match g.get(at) {
        Some(byte) => Ok(*byte),
        None => Err(Refusal::GrammarEndsEarly { length: g.len() }),
    }
}

// As many flags as count, from a position.
#[tactic(auto, using(crate::proofs::ReadingLaws::each_byte))]
fn pass_flags(g: &[u8], count: usize, at: usize) -> Result<usize, Refusal>
    ensures { result ≡ flags_from g.now count at }
{
    for k in 0..count {
        let here = at + k;
        let flag = byte_at(g, here)?;
        if 1 < flag {
            return Err(Refusal::FlagAboveOne { at: here });
        }
    }
    Ok(at + count)
}

// A section of flags: its count, 1 to most, and as many flags.
#[tactic(auto, using(std::proofs::lemmas::Bool::Decides::nat_tests), unfolding(crate::specs::Reading::flags_section))]
fn pass_flags_section(g: &[u8], most: u8, at: usize) -> Result<usize, Refusal>
    ensures { result ≡ flags_section g.now most at }
{
    let count = byte_at(g, at)?;
    if !(1..=most).contains(&count) {
        return Err(Refusal::CountOutsideLimits { at });
    }
    pass_flags(g, usize::from(count), at + 1)
}

// Grammar bytes, and the counts of classes and categories that stand in them.
#[derive(Clone, Copy)]
struct Counted<'a> {
    bytes: &'a [u8],
    classes: usize,
    categories: usize,
    ghost limits: { (classes ≤ 128) × (categories ≤ 32) },
}

impl<'a> Counted<'a> {
    // A class, or 128 and a category.
    fn is_symbol(self, b: u8) -> bool
        ensures { result ≡ is_symbol self.entry.classes self.entry.categories b }
    {
        let x = usize::from(b);
        if x < 128 {
            x < self.classes
        } else {
            x - 128 < self.categories
        }
    }

    // As many symbols as count, from a position, and their word.
    #[tactic(auto, using(crate::proofs::ReadingLaws::each_byte, crate::proofs::WordLaws::word_none))]
    fn pass_symbols(self, count: usize, at: usize) -> Result<PassedRule, Refusal>
        requires { count ≤ 8 }
        ensures { result ≡ with_word (symbols_from self.entry.bytes.now self.entry.classes self.entry.categories count at) (word_of (take count (drop at self.entry.bytes.now))) }
    {
        let mut word = 0;
        for k in 0..count {
            let here = at + k;
            let symbol = byte_at(self.bytes, here)?;
            if !self.is_symbol(symbol) {
                return Err(Refusal::NotInGrammar { at: here });
            }
            word = word * 256 + (u64::from(symbol) + 1);
        }
        Ok(PassedRule {
            next: at + count,
            word,
        })
    }

    // A rule: its left category, its length, its symbols.
    #[tactic(auto, using(std::proofs::lemmas::Bool::Decides::nat_tests), unfolding(crate::specs::Reading::rule_from, crate::specs::Standing::standing))]
    fn pass_rule(self, at: usize) -> Result<PassedRule, Refusal>
        ensures { result ≡ with_word (rule_from self.entry.bytes.now self.entry.classes self.entry.categories at) (word_of (standing self.entry.bytes.now at).right) }
    {
        let left = byte_at(self.bytes, at)?;
        if self.categories <= usize::from(left) {
            return Err(Refusal::NotInGrammar { at });
        }
        let next = at + 1;
        let count = byte_at(self.bytes, next)?;
        if 8 < count {
            return Err(Refusal::CountOutsideLimits { at: next });
        }
        self.pass_symbols(usize::from(count), at + 2)
    }

    // As many rules as count, of which rule 0 stands at first, and none repeats an earlier one: the rules so far are on chains.
    #[tactic(auto, using(crate::proofs::Passing::none_yet, crate::proofs::Passing::next_more))]
    fn pass_rules(self, count: usize, first: usize) -> Result<usize, Refusal>
        requires { count ≤ 128 }
        ensures { result ≡ rules_from self.entry.bytes.now self.entry.classes self.entry.categories [] count first }
    {
        let mut chains = Chains::new();
        let mut here = first;
        for _ in 0..count {
            let passed = self.pass_rule(here)?;
            if !chains.insert(self.bytes[here], passed.word) {
                return Err(Refusal::RuleRepeated { at: here });
            }
            here = passed.next;
        }
        Ok(here)
    }

    // The section of rules: its count, at most 128, and as many rules.
    #[tactic(auto, using(std::proofs::lemmas::Bool::Decides::nat_tests), unfolding(crate::specs::Reading::rules_section))]
    fn pass_rules_section(self, at: usize) -> Result<usize, Refusal>
        ensures { result ≡ rules_section self.entry.bytes.now self.entry.classes self.entry.categories at }
    {
        let count = byte_at(self.bytes, at)?;
        if 128 < count {
            return Err(Refusal::CountOutsideLimits { at });
        }
        self.pass_rules(usize::from(count), at + 1)
    }
}

// Classes, categories, rules, whatever stands after them.
#[tactic(auto, using(crate::proofs::ReadingLaws::flags_section_to, crate::proofs::ReadingLaws::rules_section_to), unfolding(crate::specs::Reading::sections_of))]
pub fn read_sections(g: &[u8]) -> Result<Sections, Refusal>
    ensures { result ≡ sections_of g.now }
{
    let a = pass_flags_section(g, 128, 0)?;
    let classes = g[0] as usize;
    let b = pass_flags_section(g, 32, a)?;
    let categories = g[a] as usize;
    let counted = Counted {
        bytes: g,
        classes,
        categories,
    };
    let end = counted.pass_rules_section(b)?;
    let rules = g[b] as usize;
    Ok(Sections {
        classes,
        categories,
        rules,
        flags: a + 1,
        first: b + 1,
        end,
    })
}

// The three sections, and nothing after them.
#[tactic(auto, using(std::proofs::lemmas::Bool::Decides::nat_tests), unfolding(crate::specs::Reading::read_of))]
pub fn read(g: &[u8]) -> Result<Sections, Refusal>
    ensures { result ≡ read_of g.now }
{
    let s = read_sections(g)?;
    let end = s.end;
    if end < g.len() {
        return Err(Refusal::BytesAfterRules { at: end });
    }
    Ok(s)
}
