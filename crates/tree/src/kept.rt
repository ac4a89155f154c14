// A line, and the memory that keeps the chart and the depths of its facts.
ghost use Rattle.std.specs.Prelude.{◌≤◌, length};

// A category over a span of a line.
#[derive(Clone, Copy)]
pub struct Span {
    pub category: usize,
    pub start: usize,
    pub end: usize,
}

// The tokens of a line, at most 63, a row of ends for each category and start, and a depth for each category and span.
#[derive(Clone, Copy)]
pub struct Kept<'a> {
    pub line: &'a [u8],
    pub words: &'a [u64],
    pub depths: &'a [u16],
    pub ghost short: { length line.now ≤ 63 },
}

impl<'a> Kept<'a> {
    ghost use Rattle.std.specs.Prelude.{◌≡◌, suc};
    ghost use Rattle.checks.specs.Memory.{depths_size};
    ghost use Rattle.tree.specs.inner.Kept.{depth_kept};

    // The depth kept for a category over a span.
    pub fn depth_at(&self, span: Span) -> u16
        requires start { span.start ≤ length self.now.line.now }
        requires end { span.end ≤ length self.now.line.now }
        requires room { depths_size (suc span.category) (length self.now.line.now) ≤ length self.now.depths.now }
        ensures { result ≡ depth_kept self.now span }
    {
        let width = self.line.len() + 1;
        self.depths[(span.category * width + span.start) * width + span.end]
    }
}
