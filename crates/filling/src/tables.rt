// What is worked out once before the first round: where the line has each class, and where each rule stands with the categories on its right side.
ghost use Rattle.std.specs.Prelude.{◌≡◌, ℕ, ◌<◌, length, get_or, map};
ghost use Rattle.checks.specs.Line.{IsLine};
ghost use Rattle.grammar.specs.Checked.{grammar_in};
ghost use Rattle.grammar.specs.inner.Starts.{Starts};
ghost use Rattle.filling.specs.inner.Places.{Places};
ghost use Rattle.filling.specs.inner.Mask.{MaskOf, Masks};

use grammar::rules::RuleAt;
use grammar::view::{Checked, View};

// The positions of the tokens of each class.
pub fn class_places(line: &[u8]) -> [u64; 128]
    requires { IsLine 128 line.now }
    ensures { Places line.now result }
{
    let mut places = [0u64; 128];
    for (m, token) in line.iter().enumerate() {
        let class = *token as usize;
        places[class] = positions::insert(places[class], m);
    }
    places
}

// What stands in the mask of a rule without categories; before the first round it is all that has changed.
pub const NO_CATEGORY: usize = 32;

// The categories among the symbols, and NO_CATEGORY where there are none.
pub fn mask_of(symbols: &[u8]) -> u64
    requires { (d : ℕ) → d < length symbols.now → get_or symbols.now d 0 < 160 }
    ensures { MaskOf symbols.now result }
{
    let mut mask = 0u64;
    for x in symbols {
        let symbol = *x as usize;
        if 128 <= symbol {
            mask = positions::insert(mask, symbol - 128);
        }
    }
    if mask == 0 {
        positions::insert(0, NO_CATEGORY)
    } else {
        mask
    }
}

// Where a rule stands in the grammar's bytes, and its mask.
#[derive(Clone, Copy)]
pub struct MaskedRule {
    pub at: usize,
    pub mask: u64,
}

// A grammar, and its rules by their numbers.
#[derive(Drop)]
pub struct Rules<'a> {
    pub grammar: Checked<'a>,
    pub table: [MaskedRule; 128],
    ghost placed: { Starts grammar.view.bytes.now grammar.view.sections (map (λ r. r.at) table) },
}

impl<'a> Rules<'a> {
    // A grammar's rules, in one walk; 0 for place and mask past the last rule.
    pub fn new(grammar: Checked<'a>) -> Rules<'a>
        ensures grammar { result.grammar ≡ grammar.entry }
        ensures masks { Masks (grammar_in grammar.entry) (map (λ r. r.mask) result.table) }
    {
        let View { bytes, sections } = grammar.view;
        let mut table = [MaskedRule { at: 0, mask: 0 }; 128];
        let mut at = sections.first;
        for entry in &mut table[..sections.rules] {
            let rule = RuleAt { bytes, at };
            let mask = mask_of(rule.symbols());
            *entry = MaskedRule { at, mask };
            at = rule.after();
        }
        Rules { grammar, table }
    }
}
