// A node is either a token or a use of a rule, with its start and end; and its four bytes.
ghost use Rattle.std.specs.Prelude.{◌≡◌, ◌≤◌, ◌<◌, length};
ghost use Rattle.tree.specs.Bytes.{rule_use, token_of, bytes_of, wrote};

#[derive(Clone, Copy)]
pub enum Kind {
    // A class.
    Token(u8),
    // A rule's number.
    Rule(u8),
}

#[derive(Clone, Copy)]
pub struct Node {
    pub kind: Kind,
    pub start: u8,
    pub end: u8,
}

// The use of a rule, over a span of a line.
pub fn rule_node(number: usize, start: usize, end: usize) -> Node
    requires { (number < 128) × (start ≤ 63) × (end ≤ 63) }
    ensures { result ≡ rule_use number start end }
{
    Node {
        kind: Kind::Rule(number as u8),
        start: start as u8,
        end: end as u8,
    }
}

// A token of a class.
pub fn token_node(class: u8, start: usize, end: usize) -> Node
    requires { (start ≤ 63) × (end ≤ 63) }
    ensures { result ≡ token_of class start end }
{
    Node {
        kind: Kind::Token(class),
        start: start as u8,
        end: end as u8,
    }
}

// A node's four bytes.
impl From<Node> for [u8; 4] {
    ghost from_gives = { λ node bytes. bytes ≡ bytes_of node };

    fn from(node: Node) -> [u8; 4] {
        let (kind, number) = match node.kind {
            Kind::Token(class) => (0, class),
            Kind::Rule(number) => (1, number),
        };
        [kind, number, node.start, node.end]
    }
}

// The node's four bytes are written at the front of a row; how many they are.
#[tactic(auto, using(crate::proofs::ByteLaws::wrote_node))]
pub fn put_node(out: &mut [u8], node: Node) -> usize
    requires { 4 ≤ length out.old }
    ensures { (result ≡ 4) × (out.new ≡ wrote out.old 0 (bytes_of node)) }
{
    let bytes: [u8; 4] = node.into();
    out[..4].copy_from_slice(&bytes);
    4
}
