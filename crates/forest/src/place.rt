// What the records are read from: a filled chart, and a place of a rule of its grammar.
ghost use Rattle.std.specs.Prelude.{◌≡◌, ◌<◌, length};
ghost use Rattle.grammar.specs.Value.{standing, start_of};
ghost use Rattle.forest.specs.inner.Charted.{Charted};

use grammar::view::Checked;

// A grammar, a line of its classes, and words that hold every fact.
#[derive(Clone, Copy)]
pub struct Chart<'a> {
    pub grammar: Checked<'a>,
    pub line: &'a [u8],
    pub words: &'a [u64],
    pub ghost charted: { ∥ Charted grammar line.now words.now ∥₁ },
}

// Starts, middles and ends are numbers, each with its bound in a contract: a struct would hold one number and one fact.

// A place of a rule: the rule's number and where it stands, and the number of the place's symbol, from 0.
#[derive(Clone, Copy)]
pub struct Place<'a> {
    pub chart: &'a Chart<'a>,
    pub rule: usize,
    pub at: usize,
    pub d: usize,
    pub ghost below: { rule < chart.now.grammar.view.sections.rules },
    pub ghost stands: { at ≡ start_of chart.now.grammar.view.bytes.now rule chart.now.grammar.view.sections.first },
    pub ghost inside: { d < length (standing chart.now.grammar.view.bytes.now at).right },
}
