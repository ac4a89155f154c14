// The checked grammar as a view of the caller's own bytes: its three counts and its section offsets stand beside them, and nothing is copied.
ghost use Rattle.std.specs.Prelude.{◌≡◌, ◌<◌, ◌≤◌, get_or};
ghost use Rattle.grammar.specs.Value.{Sectioned, grammar_of};
ghost use Rattle.grammar.specs.inner.Starts.{Starts};
ghost use Rattle.grammar.specs.View.{view_of};

use super::reading::Sections;
use super::rules::RuleAt;

// The bytes, and beside them the counts and the offsets.
#[derive(Clone, Copy)]
pub struct View<'a> {
    pub bytes: &'a [u8],
    pub sections: Sections,
}

// The view of any bytes with any counts and offsets: docs/CONTRACTS.md names it with this clause, which a literal has not.
pub fn view_of<'a>(g: &'a [u8], s: Sections) -> View<'a>
    ensures { result ≡ view_of g.entry s }
{
    View {
        bytes: g,
        sections: s,
    }
}

// A view whose bytes begin with these sections.
#[derive(Clone, Copy)]
pub struct Checked<'a> {
    pub view: View<'a>,
    pub ghost sectioned: { Sectioned view.bytes.now view.sections },
}

impl<'a> Checked<'a> {
    // Where each rule stands, by its number, in one walk; 0 past the last rule.
    pub fn rule_starts(self) -> [usize; 128]
        ensures { Starts self.entry.view.bytes.now self.entry.view.sections result }
    {
        let View { bytes, sections } = self.view;
        let mut starts = [0; 128];
        let mut at = sections.first;
        for start in &mut starts[..sections.rules] {
            *start = at;
            at = RuleAt { bytes, at }.after();
        }
        starts
    }

    // The flag of a class.
    pub fn class_flag(self, class: usize) -> u8
        requires { class < self.view.sections.classes }
        ensures { (result ≡ get_or (grammar_of self.entry.view.bytes.now self.entry.view.sections).classes class 0) × (result ≤ 1) }
    {
        self.view.bytes[1 + class]
    }

    // The flag of a category.
    pub fn category_flag(self, category: usize) -> u8
        requires { category < self.view.sections.categories }
        ensures { (result ≡ get_or (grammar_of self.entry.view.bytes.now self.entry.view.sections).categories category 0) × (result ≤ 1) }
    {
        self.view.bytes[self.view.sections.flags + category]
    }
}
