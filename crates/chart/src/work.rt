// What every question checks, and the number of facts in a filled chart.
ghost use Rattle.std.specs.Prelude.{◌≡◌, ◌≤◌, length, get_or, Err, Ok, MatchResult};
ghost use Rattle.positions.specs.Count.{count_below};
ghost use Rattle.derivation.specs.computed.FactCount.{total};
ghost use Rattle.grammar.specs.Reading.{read_of};
ghost use Rattle.grammar.specs.View.{view_of};
ghost use Rattle.chart.specs.inner.Checked.{checked_of};

use checks::{Asked, check_rest};
use grammar::reading::read;
use grammar::view::{Checked, view_of};
use refusals::Refusal;

// The first checks of every question: the grammar is read, then the line, the question's numbers and the work memory are checked.
pub fn checked<'a>(
    g: &'a [u8],
    line: &[u8],
    asked: Asked,
    words: usize,
    numbers: usize,
) -> Result<Checked<'a>, Refusal>
    ensures { MatchResult result
        (λ grammar. (checked_of (read_of g.now) line.now asked words numbers ≡ Ok grammar.view.sections)
        × (grammar.view.bytes.now ≡ g.now)
        × (grammar.view ≡ view_of g.entry grammar.view.sections))
        (λ refusal. checked_of (read_of g.now) line.now asked words numbers ≡ Err refusal) }
{
    let s = read(g)?;
    check_rest(s.classes, s.categories, line, asked, words, numbers)?;
    Ok(Checked {
        view: view_of(g, s),
    })
}

// How many ends the rows of a chart show.
pub fn count_ends(rows: &[u64]) -> usize
    requires { length rows.now ≤ 2048 }
    ensures { result ≡ total (λ q. count_below 64 (get_or rows.now q 0)) (length rows.now) }
{
    let mut ends = 0;
    for row in rows {
        ends += positions::count(*row) as usize;
    }
    ends
}
