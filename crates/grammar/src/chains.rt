// The rules so far on chains of their numbers, 37 for each left category.
ghost use Rattle.std.specs.Prelude.{◌≡◌, ◌↔◌, ℕ, ◌+◌, ◌<◌, ◌≤◌, true, false, get_or, set, replicate};
ghost use Rattle.grammar.specs.inner.Words.{chain_of};
ghost use Rattle.grammar.specs.inner.Chains.{WordOnChain, Falling};

// Three tables: the word of each rule, the entry after it, and the entry of each chain. An entry is 0 at a chain's end, and else one more
// than a number. With one table of words and entries, or with entries as Option, 128 rules would take more than twice the time without chains
// (docs/SPEED.md).
#[derive(Drop)]
pub struct Chains {
    words: [u64; 128],
    before: [u8; 128],
    latest: [u8; 1184],
    count: usize,
    ghost few: { count ≤ 128 },
    ghost falls: { Falling before },
    ghost entries: { (chain : ℕ) → get_or latest chain 0 ≤ count },
}

// The chain of a left category and a word.
fn chain_of(left: u8, word: u64) -> usize
    requires { left < 32 }
    ensures { (result ≡ chain_of left word) × (result < 1184) }
{
    left as usize * 37 + (word % 37) as usize
}

impl Chains {
    // No rule yet.
    pub fn new() -> Chains
        ensures words { result.words ≡ replicate 128 0 }
        ensures before { result.before ≡ replicate 128 0 }
        ensures latest { result.latest ≡ replicate 1184 0 }
        ensures count { result.count ≡ 0 }
    {
        Chains {
            words: [0; 128],
            before: [0; 128],
            latest: [0; 1184],
            count: 0,
        }
    }

    // Whether a number on a chain has this word.
    fn holds(&self, chain: usize, word: u64) -> bool
        requires { chain < 1184 }
        ensures { (result ≡ true) ↔ WordOnChain self.now.words self.now.before (get_or self.now.latest chain 0) word }
    {
        let mut entry = self.latest[chain] as usize;
        while 0 < entry {
            if self.words[entry - 1] == word {
                return true;
            }
            entry = self.before[entry - 1] as usize;
        }
        false
    }

    // One more rule, the first on its chain, unless its word is on that chain: then the answer is false.
    pub fn insert(&mut self, left: u8, word: u64) -> bool
        requires { (left < 32) × (self.old.count < 128) }
        ensures known { (result ≡ false) ↔ WordOnChain self.old.words self.old.before (get_or self.old.latest (chain_of left word) 0) word }
        ensures words { result ≡ true → self.new.words ≡ set self.old.words self.old.count word }
        ensures before { result ≡ true → self.new.before ≡ set self.old.before self.old.count (get_or self.old.latest (chain_of left word) 0) }
        ensures latest { result ≡ true → self.new.latest ≡ set self.old.latest (chain_of left word) (self.old.count + 1) }
        ensures count { result ≡ true → self.new.count ≡ self.old.count + 1 }
    {
        let chain = chain_of(left, word);
        if self.holds(chain, word) {
            return false;
        }
        self.words[self.count] = word;
        self.before[self.count] = self.latest[chain];
        self.count += 1;
        self.latest[chain] = self.count as u8;
        true
    }
}
