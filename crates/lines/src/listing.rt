// Prints the lines of facts and of nodes, and the line of marks, from the memory that holds them.
ghost use Rattle.std.specs.Prelude.{map, ℕ, ◌+◌, ◌*◌, ◌/◌, ◌≤◌, ◌<◌, length, get_or};
ghost use Rattle.derivation.specs.computed.Listing.{gathered};
ghost use Rattle.lines.specs.Decimal.{digit_code};
ghost use Rattle.lines.specs.inner.Printed.{HasRoom, Printed};
ghost use Rattle.lines.specs.Lines.{marks_of};
ghost use Rattle.lines.specs.inner.Listing.{depth_line, fact_line_at, node_line_at};

use super::writing::Page;

impl Page<'_> {
    // Prints the line of a fact, and nothing where its depth is 0.
    fn fact(&mut self, category: usize, start: usize, end: usize, depth: usize)
        requires small { (category < 100000) × (start < 100000) × (end < 100000) × (depth < 100000) }
        requires room { HasRoom self.old 29 }
        ensures { Printed self.old (depth_line category start end depth) self.new }
    {
        if depth == 0 {
            return;
        }
        self.line(b"fact", &[category, start, end, depth]);
    }

    // Prints the lines of facts whose depths are numbers in rows of a width.
    pub fn facts(&mut self, depths: &[u16], width: usize)
        requires some_width { 0 < width }
        requires few { length depths.now ≤ 16384 }
        requires room { HasRoom self.old (29 * length depths.now) }
        ensures printed { Printed self.old
            (gathered (length depths.now) (fact_line_at depths.now width))
            self.new }
        ensures short { self.new.at ≤ self.old.at + 29 * length depths.now }
    {
        for (q, depth) in depths.iter().enumerate() {
            let row = q / width;
            self.fact(row / width, row % width, q % width, *depth as usize);
        }
    }

    // Prints a line for each node of four bytes.
    pub fn nodes(&mut self, bytes: &[u8])
        requires { HasRoom self.old (21 * (length bytes.now / 4)) }
        ensures printed { Printed self.old
            (gathered (length bytes.now / 4) (node_line_at bytes.now))
            self.new }
        ensures short { self.new.at ≤ self.old.at + 21 * (length bytes.now / 4) }
    {
        let (nodes, _) = bytes.as_chunks::<4>();
        for node in nodes {
            self.line(b"node", &node.map(usize::from));
        }
    }

    // Prints the line of marks.
    pub fn marks(&mut self, marks: &[u8])
        requires room { HasRoom self.old (length marks.now + 7) }
        requires bits { (t : ℕ) → t < length marks.now → get_or marks.now t 0 ≤ 1 }
        ensures { Printed self.old (marks_of marks.now) self.new }
    {
        self.bytes(b"marks");
        if !marks.is_empty() {
            self.bytes(b" ");
            self.digits(marks);
        }
        self.bytes(b"\n");
    }

    // Prints a digit for each mark.
    fn digits(&mut self, marks: &[u8])
        requires room { HasRoom self.old (length marks.now) }
        requires bits { (t : ℕ) → t < length marks.now → get_or marks.now t 0 ≤ 1 }
        ensures { Printed self.old (map digit_code marks.now) self.new }
    {
        for mark in marks {
            self.bytes(&[b'0' + *mark]);
        }
    }
}
