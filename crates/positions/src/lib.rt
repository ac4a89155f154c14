// Sets of positions in a word of 64 bits.
#![tactic(auto)]

ghost use Rattle.std.specs.Prelude.{◌≡◌, ◌+◌, ◌^◌, ◌≤◌, ◌<◌, eqb, length};
ghost use Rattle.std.specs.Iterator.{YieldsFirst, item_count};
ghost use Rattle.positions.specs.Member.{digit};
ghost use Rattle.positions.specs.Ascending.{members_left};
ghost use Rattle.positions.specs.With.{With};
ghost use Rattle.positions.specs.Count.{count_below};
ghost use Rattle.positions.specs.First.{First};
ghost use Rattle.positions.specs.Last.{Last};
ghost use Rattle.positions.specs.BothEnds.{BothEnds};
ghost use Rattle.positions.specs.Union.{Union};
ghost use Rattle.positions.specs.AfterClass.{AfterClass};

// Whether a position is in the set.
#[tactic(auto, unfolding(crate::specs::Member::digit))]
pub fn member(set: u64, at: usize) -> bool
    requires { at < 64 }
    ensures { result ≡ eqb (digit set at) 1 }
{
    (set >> at) & 1 == 1
}

// The set with one more position.
#[tactic(auto, using(crate::proofs::Shifts::with_shift))]
pub fn insert(set: u64, at: usize) -> u64
    requires { at < 64 }
    ensures { With set at result }
{
    set | (1 << at)
}

// How many positions the set has.
#[tactic(auto, using(crate::proofs::Counts::ones_count))]
pub fn count(set: u64) -> u32
    ensures { result ≡ count_below 64 set }
{
    u64::count_ones(set)
}

// The smallest position of the set, and 64 for the empty set: the number of trailing zeros, which `First` tells, and no None.
#[tactic(auto, using(crate::proofs::Extremes::first_trailing))]
pub fn first(set: u64) -> u32
    ensures { First set result }
{
    u64::trailing_zeros(set)
}

// The largest position of a set that is not empty.
pub fn last(set: u64) -> u32
    requires { 0 < set }
    ensures { Last set result }
{
    63 - u64::leading_zeros(set)
}

// The members of a set, the smallest first: those of `left` are still to come.
#[derive(Clone, Copy)]
pub struct Ascending {
    pub left: u64,
}

impl Iterator for Ascending {
    type Item = usize;

    ghost next_gives = { YieldsFirst members_left };

    ghost remaining = { item_count members_left };

    #[tactic(auto, using(crate::proofs::Listed::empty_list, crate::proofs::Listed::first_listed))]
    fn next(&mut self) -> Option<usize> {
        if self.left == 0 {
            return None;
        }
        let m = first(self.left);
        self.left = self.left & (self.left - 1);
        Some(m as usize)
    }
}

// The members of the set, ascending.
pub fn members_of(set: u64) -> Ascending
    ensures { result.left ≡ set }
{
    Ascending { left: set }
}

// What stands for an end where a set has no position: a number and no None, as the document and the exported functions answer.
pub const NO_END: u32 = 255;

// The smallest and the largest position of a set.
#[derive(Clone, Copy)]
pub struct Ends {
    pub smallest: u32,
    pub largest: u32,
}

// The smallest and the largest position of the set, and NO_END for both where it is empty.
#[tactic(auto, using(crate::proofs::Extremes::both_none, crate::proofs::Extremes::both_some))]
pub fn both_ends(set: u64) -> Ends
    ensures { BothEnds set result.smallest result.largest }
{
    if set == 0 {
        return Ends {
            smallest: NO_END,
            largest: NO_END,
        };
    }
    Ends {
        smallest: first(set),
        largest: last(set),
    }
}

// The union of the rows base + m over the members m of the set, from ≤ m < width, as `Union` says it of a chart's rows.
pub fn union(set: u64, rows: &[u64], base: usize, from: usize, width: usize) -> u64
    requires { (width ≤ 64) × (base + width ≤ length rows.now) }
    ensures { Union set rows.now base from width result }
{
    if width <= from {
        return 0;
    }
    let mut all = 0u64;
    let mut left = ((set >> from) << from) & (0xffff_ffff_ffff_ffff >> (64 - width));
    // The members that have the next seven positions beside them in the set: from such a one on, a run of members is taken at once.
    // So the loop goes from run to run, and by no iterator over members; one over runs would be this loop in a struct, used here alone.
    let pairs = left & (left >> 1);
    let fours = pairs & (pairs >> 2);
    let runs = fours & (fours >> 4);
    while left != 0 {
        let m = first(left) as usize;
        if runs == 0 || (runs >> m) & 1 == 0 {
            all |= rows[base + m];
            left = left & (left - 1);
        } else {
            let last = m + first((left >> m) ^ 0xffff_ffff_ffff_ffff) as usize - 1;
            for row in &rows[base + m..=base + last] {
                all |= *row;
            }
            left = ((left >> last) - 1) << last;
        }
    }
    all
}

// The positions right after those of the set that are in `places`, the positions at which the line has a class.
#[tactic(auto, using(crate::proofs::Shifts::after_shift))]
pub fn after_class(set: u64, places: u64) -> u64
    requires { places < 2 ^ 63 }
    ensures { AfterClass set places result }
{
    (set & places) << 1
}
