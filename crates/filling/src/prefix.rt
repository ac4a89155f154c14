// Where a rule's symbols can end, from each start, over the facts that the chart holds.
ghost use Rattle.std.specs.Prelude.{◌≡◌, ℕ, ◌*◌, ◌^◌, ◌≤◌, ◌<◌, length, get_or};
ghost use Rattle.filling.specs.inner.Reach.{Room, Reaches, Applied};

// What a round reads: the chart's words, where the line has each class, and how many starts a category has.
#[derive(Clone, Copy)]
pub struct Chart<'a> {
    pub words: &'a [u64],
    pub places: &'a [u64; 128],
    pub width: usize,
    ghost narrow: { width ≤ 64 },
    ghost small: { (c : ℕ) → get_or places.now c 0 < 2 ^ 63 },
}

impl Chart<'_> {
    // The ends of the symbols from a start.
    fn reach(&self, symbols: &[u8], start: usize) -> u64
        requires { Room symbols.now self.now.words.now self.now.width × (start < self.now.width) }
        ensures { Reaches symbols.now self.now.words.now self.now.places.now self.now.width start result }
    {
        let mut ends = positions::insert(0, start);
        for x in symbols {
            if ends == 0 {
                return 0;
            }
            let symbol = *x as usize;
            if symbol < 128 {
                ends = positions::after_class(ends, self.places[symbol]);
            } else {
                ends = positions::union(
                    ends,
                    self.words,
                    (symbol - 128) * self.width,
                    start,
                    self.width,
                );
            }
        }
        ends
    }

    // Each row (left, start) of next gains the ends of the symbols from that start.
    pub fn apply(&self, left: usize, symbols: &[u8], next: &mut [u64; 2048])
        requires { Room symbols.now self.now.words.now self.now.width × (left < 32) }
        ensures { Applied symbols.now self.now.words.now self.now.places.now (left * self.now.width) self.now.width
            next.old
            next.new }
    {
        let base = left * self.width;
        for start in 0..self.width {
            next[base + start] |= self.reach(symbols, start);
        }
    }
}
