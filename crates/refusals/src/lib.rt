// Why a question is turned down: one variant for each cause. Each has the document's number and place.
#![tactic(auto)]

ghost use Rattle.std.specs.Prelude.{◌≡◌};
ghost use Rattle.refusals.specs.Row.{row_of};

#[derive(Clone, Copy)]
pub enum Refusal {
    // The grammar's bytes end early; length is how many there are.
    GrammarEndsEarly { length: usize },
    // A count of classes, categories, rules or symbols is outside its limits.
    CountOutsideLimits { at: usize },
    FlagAboveOne { at: usize },
    // A left category or a symbol is not in the grammar.
    NotInGrammar { at: usize },
    // A rule equals an earlier one; its left category stands there.
    RuleRepeated { at: usize },
    BytesAfterRules { at: usize },
    LineTooLong,
    // The first token that is no class of the grammar.
    TokenNoClass { token: usize },
    CategoryOutside,
    StartOutside,
    EndOutside,
    ChartTooSmall,
    DepthsTooSmall,
    TreeOfNoFact,
    MarksTooSmall { needed: usize },
    ForestTooSmall { needed: usize },
    TreeTooSmall,
    JobBadlyFormed { at: usize },
}

// A row of the document's table: a refusal's number and place.
#[derive(Clone, Copy)]
pub struct Row {
    pub number: u8,
    pub place: usize,
}

// The number and the place of a refusal.
impl From<Refusal> for Row {
    ghost from_gives = { λ refusal row. row ≡ row_of refusal };

    fn from(refusal: Refusal) -> Row {
        let (number, place) = match refusal {
            Refusal::GrammarEndsEarly { length } => (1, length),
            Refusal::CountOutsideLimits { at } => (2, at),
            Refusal::FlagAboveOne { at } => (3, at),
            Refusal::NotInGrammar { at } => (4, at),
            Refusal::RuleRepeated { at } => (14, at),
            Refusal::BytesAfterRules { at } => (5, at),
            Refusal::LineTooLong => (6, 63),
            Refusal::TokenNoClass { token } => (7, token),
            Refusal::CategoryOutside => (8, 0),
            Refusal::StartOutside => (8, 1),
            Refusal::EndOutside => (8, 2),
            Refusal::ChartTooSmall => (9, 0),
            Refusal::DepthsTooSmall => (9, 1),
            Refusal::TreeOfNoFact => (10, 0),
            Refusal::MarksTooSmall { needed } => (11, needed),
            Refusal::ForestTooSmall { needed } => (11, needed),
            Refusal::TreeTooSmall => (11, 0),
            Refusal::JobBadlyFormed { at } => (13, at),
        };
        Row { number, place }
    }
}
