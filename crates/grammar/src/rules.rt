// The rule that stands at a position of grammar bytes.
ghost use Rattle.std.specs.Prelude.{◌≡◌, ◌≤◌, length};
ghost use Rattle.grammar.specs.Value.{Stands, standing, after};

// Bytes, and a position at which a whole rule stands.
#[derive(Clone, Copy)]
pub struct RuleAt<'a> {
    pub bytes: &'a [u8],
    pub at: usize,
    pub ghost stands: { Stands bytes.now at },
}

impl<'a> RuleAt<'a> {
    // Its left category.
    #[tactic(auto, using(crate::proofs::Accepted::left_is))]
    pub fn left(self) -> u8
        ensures { result ≡ (standing self.entry.bytes.now self.entry.at).left }
    {
        self.bytes[self.at]
    }

    // Its number of symbols.
    #[tactic(auto, using(crate::proofs::Accepted::length_is))]
    pub fn length(self) -> usize
        ensures { (result ≡ length (standing self.entry.bytes.now self.entry.at).right) × (result ≤ 8) }
    {
        self.bytes[self.at + 1] as usize
    }

    // Its symbols, as a part of the bytes.
    #[tactic(auto, using(crate::proofs::Accepted::symbols_is, crate::proofs::Accepted::length_is))]
    pub fn symbols(self) -> &'a [u8]
        ensures { result.now ≡ (standing self.entry.bytes.now self.entry.at).right }
    {
        let first = self.at + 2;
        &self.bytes[first..self.after()]
    }

    // The position past it, where the next rule stands. Walks over the rules go by it and keep what they need of each, so there is no iterator.
    #[tactic(auto, using(crate::proofs::Accepted::length_is))]
    pub fn after(self) -> usize
        ensures { result ≡ after self.entry.bytes.now self.entry.at }
    {
        self.at + 2 + self.length()
    }
}
