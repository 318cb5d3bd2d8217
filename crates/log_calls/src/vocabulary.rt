// The words that a line can begin with.
ghost use Rattle.log_calls.specs.Vocabulary.{Says};

#[derive(Clone, Copy, Debug, PartialEq, Eq)]
pub enum Word {
    List,
    Plant,
    Check,
    Part,
    Fact,
    Fresh,
    Board,
    Plan,
    Send,
    Clock,
    Retire,
    Report,
    Table,
    State,
    Write,
}

// The word that is written so, if there is one.
pub fn word_of(s: &[u8]) -> Option<Word>
    ensures { Says s.now result }
{
    match s {
        b"list" => Some(Word::List),
        b"plant" => Some(Word::Plant),
        b"check" => Some(Word::Check),
        b"part" => Some(Word::Part),
        b"fact" => Some(Word::Fact),
        b"fresh" => Some(Word::Fresh),
        b"board" => Some(Word::Board),
        b"plan" => Some(Word::Plan),
        b"send" => Some(Word::Send),
        b"clock" => Some(Word::Clock),
        b"retire" => Some(Word::Retire),
        b"report" => Some(Word::Report),
        b"table" => Some(Word::Table),
        b"state" => Some(Word::State),
        b"write" => Some(Word::Write),
        _ => None,
    }
}

impl Word {
    // The fewest and the most words that follow the first. Of `write` no number is the most, and so it is the largest there is: how many actions a
    // written plant has is told by its numbers.
    pub fn arguments(self) -> (usize, usize) {
        match self {
            Word::Check | Word::Retire | Word::Table | Word::State => (0, 0),
            Word::Fresh => (2, 2),
            Word::Write => (2, usize::MAX),
            _ => (1, 1),
        }
    }
}
