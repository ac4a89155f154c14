// Writes the pieces of what is printed of a job that was read: the chart's lines, the marks, a question.
ghost use Rattle.std.specs.Prelude.{◌++◌, ◌+◌, ◌≤◌, length};
ghost use Rattle.refusals.specs.Row.{row_of};
ghost use Rattle.grammar.specs.Given.{grammar_given};
ghost use Rattle.lines.specs.inner.Printed.{HasRoom, Printed};
ghost use Rattle.lines.specs.inner.Stored.{Stored};
ghost use Rattle.report.specs.inner.Checked.{JobPasses};
ghost use Rattle.report.specs.Printed.{refused_line, rounds_line, fact_lines, marks_line, tree_lines};

use grammar::view::{Checked, View};
use lines::writing::Page;
use refusals::{Refusal, Row};

// Prints a refusal's line.
pub fn refused_line(page: &mut Page, refusal: Refusal)
    requires { HasRoom page.old 64 }
    ensures printed { Printed page.old (refused_line (row_of refusal)) page.new }
    ensures short { page.new.at ≤ page.old.at + 64 }
{
    let row = Row::from(refusal);
    page.line(b"refused", &[row.number as usize, row.place]);
}

// A grammar and a line that pass the chart's first checks, over the work memory that the program lends.
#[derive(Clone, Copy)]
pub struct CheckedJob<'a> {
    pub grammar: Checked<'a>,
    pub line: &'a [u8],
    pub ghost passes: { JobPasses grammar line.now },
}

// Words, depths and nodes are fixed memory in the frame of the function that asks; a struct of them would take the two lines that they take.

impl CheckedJob<'_> {
    // Writes rounds and facts, and a line for each fact.
    pub fn write_chart(self, out: &mut [u8]) -> usize
        requires { 475200 ≤ length out.old }
        ensures { Stored out.old 0
            (rounds_line (grammar_given self.entry.grammar.view.bytes.now) self.entry.line.now
            ++ fact_lines (grammar_given self.entry.grammar.view.bytes.now) self.entry.line.now)
            out.new result }
    {
        let View { bytes, sections } = self.grammar.view;
        let line = self.line;
        let mut words = [0; 512];
        let mut depths = [0; 16384];
        match chart::chart(bytes, line, &mut words, &mut depths) {
            Err(_) => 0,
            Ok(answer) => {
                let width = line.len() + 1;
                let mut page = Page { row: out, at: 0 };
                page.rounds(answer.rounds, answer.facts);
                page.facts(&depths[..sections.categories * width * width], width);
                page.at
            }
        }
    }

    // Writes the line of the marks.
    pub fn write_marked(self, out: &mut [u8]) -> usize
        requires { 475200 ≤ length out.old }
        ensures { Stored out.old 0 (marks_line (grammar_given self.entry.grammar.view.bytes.now) self.entry.line.now) out.new result }
    {
        let bytes = self.grammar.view.bytes;
        let line = self.line;
        let mut words = [0; 512];
        let mut depths = [0; 16384];
        let mut marked = [0; 63];
        let _ = marks::marks(bytes, line, &mut words, &mut depths, &mut marked);
        let answered = &marked[..line.len()];
        let mut page = Page { row: out, at: 0 };
        page.marks(answered);
        page.at
    }
}

// Writes a question's line, and its nodes or the refusal.
pub fn write_tree(g: &[u8], line: &[u8], category: u8, start: u8, end: u8, out: &mut [u8]) -> usize
    requires { 475200 ≤ length out.old }
    ensures { Stored out.old 0
        (tree_lines g.now line.now (record { category = category; start = start; end = end }))
        out.new result }
{
    let mut words = [0; 512];
    let mut depths = [0; 16384];
    let mut nodes = [0; 4096];
    let a = category as usize;
    let i = start as usize;
    let j = end as usize;
    let mut page = Page { row: out, at: 0 };
    page.line(b"tree", &[a, i, j]);
    match tree::tree(g, line, a, i, j, &mut words, &mut depths, &mut nodes) {
        Err(refusal) => refused_line(&mut page, refusal),
        Ok(count) => page.nodes(&nodes[..4 * count]),
    }
    page.at
}
