// The nodes of a tree, written in preorder, children left to right.
ghost use Rattle.std.specs.Prelude.{◌≡◌, ◌≤◌, length};
ghost use Rattle.tree.specs.Bytes.{bytes, wrote};
ghost use Rattle.tree.specs.inner.Searchable.{Ready, nodes_of};

use super::kept::Span;
use super::node::{put_node, rule_node, token_node};
use super::search::Search;

// Writes the nodes of a fact at the front of a row; how many bytes they are. The fact's depth falls at each call.
#[tactic(auto, using(crate::proofs::WriteLaws::turn_low))]
pub fn write(search: &Search, span: Span, out: &mut [u8]) -> usize
    requires ready { Ready search.now span }
    requires room { length (bytes (nodes_of search.now span)) ≤ length out.old }
    ensures count { result ≡ length (bytes (nodes_of search.now span)) }
    ensures nodes { out.new ≡ wrote out.old 0 (bytes (nodes_of search.now span)) }
{
    let found = search.node(span);
    let mut written = put_node(out, rule_node(found.rule, span.start, span.end));
    for (d, &symbol) in found.symbols.iter().enumerate() {
        let start = found.ends[d];
        let end = found.ends[d + 1];
        if symbol < 128 {
            written += put_node(&mut out[written..], token_node(symbol, start, end));
        } else {
            let child = Span {
                category: symbol as usize - 128,
                start,
                end,
            };
            written += write(search, child, &mut out[written..]);
        }
    }
    written
}
