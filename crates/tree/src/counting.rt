// The number of nodes of a tree, counted no further than past a limit.
ghost use Rattle.std.specs.Prelude.{◌^◌, ◌<◌, length};
ghost use Rattle.tree.specs.inner.Searchable.{Ready, nodes_of};
ghost use Rattle.tree.specs.inner.Counted.{Counted};

use super::kept::Span;
use super::search::Search;

// The nodes of a fact; a number past the limit for more.
pub fn count_nodes(search: &Search, span: Span, limit: usize) -> usize
    requires ready { Ready search.now span }
    requires limit { limit < 2 ^ 62 }
    ensures { Counted (length (nodes_of search.now span)) limit result }
{
    let found = search.node(span);
    let mut count: usize = 1;
    for (d, &symbol) in found.symbols.iter().enumerate() {
        if limit < count {
            return count;
        }
        if symbol < 128 {
            count += 1;
        } else {
            let child = Span {
                category: symbol as usize - 128,
                start: found.ends[d],
                end: found.ends[d + 1],
            };
            count += count_nodes(search, child, limit - count);
        }
    }
    count
}
