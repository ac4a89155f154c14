// The end of a round: what is new gets its depth, and the chart takes it up.
ghost use Rattle.std.specs.Prelude.{ℕ, ◌*◌, ◌≤◌, ◌<◌, length};
ghost use Rattle.positions.specs.Member.{Member};
ghost use Rattle.filling.specs.inner.Commit.{Deepened, Ready};
ghost use Rattle.filling.specs.inner.Gained.{RowsCommitted, AllCommitted};

// The entries of the set's members are the depth.
pub fn write_depths(depths: &mut [u16], set: u64, depth: u16)
    requires { (j : ℕ) → Member set j → j < length depths.old }
    ensures { Deepened set depth depths.old depths.new }
{
    for j in positions::members_of(set) {
        depths[j] = depth;
    }
}

// What a round ends with: the rows that it has made, how many starts a category has, and the round's number.
#[derive(Clone, Copy)]
pub struct Round<'a> {
    pub next: &'a [u64; 2048],
    pub width: usize,
    pub depth: u16,
}

impl Round<'_> {
    // The rows from `from` up to `to`; whether any has something new.
    fn commit_rows(&self, words: &mut [u64], depths: &mut [u16], from: usize, to: usize) -> bool
        requires { Ready to self.now.width words.old self.now.next.now depths.old × (to ≤ 2048) }
        ensures { RowsCommitted from to self.now.width self.now.depth
            words.old self.now.next.now depths.old
            words.new depths.new result }
    {
        let mut gained = false;
        for q in from..to {
            let old = words[q];
            let new = self.next[q];
            if new != old {
                write_depths(&mut depths[q * self.width..], new ^ old, self.depth);
                words[q] = new;
                gained = true;
            }
        }
        gained
    }

    // The rows of all categories; which of them have something new.
    pub fn commit(&self, words: &mut [u64], depths: &mut [u16], categories: usize) -> u64
        requires { Ready (categories * self.now.width) self.now.width words.old self.now.next.now depths.old × (categories ≤ 32) × (self.now.width ≤ 64) }
        ensures { AllCommitted categories self.now.width self.now.depth
            words.old self.now.next.now depths.old
            words.new depths.new result }
    {
        let mut changed = 0u64;
        for a in 0..categories {
            let from = a * self.width;
            if self.commit_rows(words, depths, from, from + self.width) {
                changed = positions::insert(changed, a);
            }
        }
        changed
    }
}
