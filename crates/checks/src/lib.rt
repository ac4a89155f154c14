// The checks of a question beside its grammar: the line, the question's numbers, each lent row of work memory.
#![tactic(auto)]

ghost use Rattle.std.specs.Prelude.{◌≡◌, ◌≤◌};
ghost use Rattle.checks.specs.Line.{line_check};
ghost use Rattle.checks.specs.Question.{refuse_if, start_check, span_check, asked_check};
ghost use Rattle.checks.specs.Memory.{work_check};
ghost use Rattle.checks.specs.inner.Rest.{rest_check};

use refusals::Refusal;

// The numbers that a question asks with: none, a category and a start, a category and a span.
#[derive(Clone, Copy)]
pub enum Asked {
    Nothing,
    Start {
        category: usize,
        start: usize,
    },
    Span {
        category: usize,
        start: usize,
        end: usize,
    },
}

// At most 63 tokens, each below the number of classes.
#[tactic(auto, using(crate::proofs::Laws::line_laws))]
fn check_line(classes: usize, line: &[u8]) -> Result<(), Refusal>
    ensures { result ≡ line_check classes line.now }
{
    if 63 < line.len() {
        return Err(Refusal::LineTooLong);
    }
    for (token, class) in line.iter().enumerate() {
        if classes <= *class as usize {
            return Err(Refusal::TokenNoClass { token });
        }
    }
    Ok(())
}

// A refusal where the fault is there.
fn refuse_if(fault: bool, refusal: Refusal) -> Result<(), Refusal>
    ensures { result ≡ refuse_if fault refusal }
{
    if fault { Err(refusal) } else { Ok(()) }
}

// A category of the grammar, and a start on a line of n tokens.
#[tactic(auto, unfolding(crate::specs::Question::start_check))]
fn check_start(categories: usize, n: usize, category: usize, start: usize) -> Result<(), Refusal>
    ensures { result ≡ start_check categories n category start }
{
    refuse_if(categories <= category, Refusal::CategoryOutside)?;
    refuse_if(n < start, Refusal::StartOutside)
}

// A category of the grammar, and a span of a line of n tokens.
#[tactic(auto, unfolding(crate::specs::Question::span_check))]
fn check_span(
    categories: usize,
    n: usize,
    category: usize,
    start: usize,
    end: usize,
) -> Result<(), Refusal>
    ensures { result ≡ span_check categories n category start end }
{
    check_start(categories, n, category, start)?;
    refuse_if(n < end, Refusal::EndOutside)?;
    refuse_if(end < start, Refusal::EndOutside)
}

// What a question asks with, on a line of n tokens.
fn check_asked(categories: usize, n: usize, asked: Asked) -> Result<(), Refusal>
    ensures { result ≡ asked_check categories n asked }
{
    match asked {
        Asked::Nothing => Ok(()),
        Asked::Start { category, start } => check_start(categories, n, category, start),
        Asked::Span {
            category,
            start,
            end,
        } => check_span(categories, n, category, start, end),
    }
}

// Chart memory, a word for each category and start, then depth memory, a number for each category, start and end, for a line of n tokens.
fn check_work(categories: usize, n: usize, words: usize, numbers: usize) -> Result<(), Refusal>
    requires { (categories ≤ 32) × (n ≤ 63) }
    ensures { result ≡ work_check categories n words numbers }
{
    let rows = categories * (n + 1);
    refuse_if(words < rows, Refusal::ChartTooSmall)?;
    refuse_if(numbers < rows * (n + 1), Refusal::DepthsTooSmall)
}

// What is left to check once a grammar of so many classes and categories is read: the line, the question's numbers, the work memory.
// Counts and lengths are handed on one by one: a struct of them would be taken apart at once.
pub fn check_rest(
    classes: usize,
    categories: usize,
    line: &[u8],
    asked: Asked,
    words: usize,
    numbers: usize,
) -> Result<(), Refusal>
    requires { categories ≤ 32 }
    ensures { result ≡ rest_check classes categories line.now asked words numbers }
{
    check_line(classes, line)?;
    check_asked(categories, line.len(), asked)?;
    check_work(categories, line.len(), words, numbers)
}
