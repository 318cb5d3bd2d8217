// The calls of a log, one line each: what a line asks for, and the text of its answer.
//
// A line is ruled on first (`rule_line`), which may change the plant file and the words of the board and writes no text; then its
// answer is written (`put_answer`). A new call is a word of `vocabulary`, an arm of `Desk::rule`, and an arm of `put_answer` where it answers
// in a new form.
//
// It may use the product's calls and what reads their arguments and writes their answers as text. Files and standard
// output are for the programs.
#![tactic(auto)]

mod answers;
mod boards; // a board's settings and words, as a line gives them
mod faults;
mod reports; // the report
mod vocabulary;

ghost use Rattle.std.specs.Prelude.{◌≡◌, length, take};
ghost use Rattle.base_lists.specs.Loops.{rewritten};
ghost use Rattle.part_boardwords.specs.Layout.{board_size};
ghost use Rattle.log_calls.specs.declared.answers.Answer.TheVariants.{Nothing};
ghost use Rattle.log_calls.specs.Texts.{Shows};
ghost use Rattle.log_text.specs.Written.{Written};

pub use answers::Answer;
use answers::{put_line, put_part, put_ruling, put_shown};
use base_rulings::Ruling;
use boards::{settings_of, store_board};
use call_board::fresh;
use call_clocking::clock;
use call_planning::plan;
use call_retiring::retire;
use call_sending::send;
pub use faults::Fault;
use faults::number_of;
use log_boardtext::{State, Table};
use log_text::{Text, count};
use log_writing::{WriteError, put_file, rule_write};
use part_boardwords::{BOARD_WORDS, clear};
use read_offer::rule_facts;
use read_plant::{allocations, check_plant};
use reports::{Report, report_answer};
use vocabulary::{Word, word_of};

// The most bytes that a plant file or an offer has in a log.
pub const MOST_BYTES: usize = 16384;

// What the lines of a log work on: the plant file that the last line `plant` gave, and the board, which is lent as its words.
#[derive(Drop)]
pub struct Desk<'a> {
    plant: Text<MOST_BYTES>,
    board: &'a mut [u32; BOARD_WORDS],
}

impl<'a> Desk<'a> {
    // A log begins as a list does.
    pub fn new(board: &'a mut [u32; BOARD_WORDS]) -> Desk<'a>
        ensures plant { result.plant.len ≡ 0 }
        ensures board { result.board.now ≡ rewritten (λ k. 0) board.old 0 board_size }
    {
        clear(board, 0, BOARD_WORDS);
        Desk {
            plant: Text::new(),
            board,
        }
    }

    // Rules on a line.
    pub fn rule_line(&mut self, line: &[u8]) -> Result<Answer, Fault>
        ensures { length line.now ≡ 0 → result ≡ Ok Nothing }
    {
        // Some editors write a carriage return before a line's end: it is told before the word or the number that it would spoil.
        if line.ends_with(b"\r") {
            return Err(Fault::CarriageReturn);
        }
        // An empty line or a comment.
        if line.is_empty() || line.starts_with(b"#") {
            return Ok(Answer::Nothing);
        }
        let (word, argument) = word_and_argument(line);
        let word = word_of(word).ok_or(Fault::UnknownWord)?;
        let blanks = count(line, b' ');
        let (fewest, most) = word.arguments();
        if blanks < fewest {
            return Err(Fault::MissingWord);
        }
        if most < blanks {
            return Err(Fault::ExtraWord);
        }
        self.rule(word, argument)
    }

    // The calls that may change the plant file or the board, and those that only answer.
    fn rule(&mut self, word: Word, argument: &[u8]) -> Result<Answer, Fault> {
        match word {
            Word::List => self.begin_list(argument),
            Word::Plant => {
                self.plant.set_hex(argument)?;
                Ok(Answer::Nothing)
            }
            Word::Board => {
                store_board(self.board, argument)?;
                Ok(Answer::Nothing)
            }
            Word::Fresh => Ok(Answer::Ruling(fresh(self.board, settings_of(argument)?))),
            Word::Plan => self.plan_offer(argument),
            Word::Send => Ok(Answer::Ruling(send(self.board, number_of(argument)?))),
            Word::Clock => Ok(Answer::Ruling(clock(self.board, number_of(argument)?))),
            Word::Retire => Ok(Answer::Ruling(retire(self.board))),
            Word::Check => Ok(Answer::Ruling(check_plant(self.plant.as_bytes()))),
            Word::Part => Ok(Answer::Part(number_of(argument)?)),
            Word::Fact => self.check_offer(argument),
            Word::Report => report_answer(number_of(argument)?, self.board),
            Word::Table => Ok(Answer::Table),
            Word::State => Ok(Answer::State),
            Word::Write => write_answer(argument),
        }
    }

    // A list begins with no plant file and a board of zeros, as a refused fresh leaves it.
    fn begin_list(&mut self, name: &[u8]) -> Result<Answer, Fault>
        ensures { self.new.plant.len ≡ 0 }
    {
        self.plant.clear();
        clear(self.board, 0, BOARD_WORDS);
        if name.is_empty() {
            return Err(Fault::NoName);
        }
        Ok(Answer::Line)
    }

    // An offer has at most as many bytes as a plant file. It has room in the functions that read it: a function pays for its room at each call, so that
    // in `rule` every line would.
    fn plan_offer(&mut self, hex: &[u8]) -> Result<Answer, Fault> {
        let mut offer: Text<MOST_BYTES> = Text::new();
        offer.set_hex(hex)?;
        let plant = self.plant.as_bytes();
        let board = &mut *self.board;
        Ok(Answer::Ruling(plan(board, plant, offer.as_bytes())))
    }

    fn check_offer(&self, hex: &[u8]) -> Result<Answer, Fault> {
        let mut offer: Text<MOST_BYTES> = Text::new();
        offer.set_hex(hex)?;
        let plant = self.plant.as_bytes();
        Ok(Answer::Ruling(rule_facts(plant, offer.as_bytes())))
    }

    // Puts the answer to this line.
    pub fn put_answer<const N: usize>(&self, text: &mut Text<N>, answer: Answer, line: &[u8])
        ensures { Shows answer line.now (take self.now.plant.len self.now.plant.bytes) (text.new ≡ text.old)
            (λ s. Written text.old.bytes text.old.len s text.new.bytes text.new.len) }
    {
        match answer {
            Answer::Nothing => {}
            Answer::Line => put_line(text, line),
            Answer::Ruling(ruling) => put_ruling(text, ruling),
            Answer::Part(action) => put_part(text, allocations(self.plant.as_bytes(), action)),
            Answer::Report(room) => put_shown(
                text,
                Report {
                    board: self.board,
                    room,
                },
            ),
            Answer::File => put_file(text, word_and_argument(line).1),
            Answer::Table => put_shown(text, Table(self.board)),
            Answer::State => put_shown(text, State(self.board)),
        }
    }
}

// The first word of a line, and what is behind the blank that ends it.
fn word_and_argument(line: &[u8]) -> (&[u8], &[u8]) {
    let mut parts = line.splitn(2, |b| *b == b' ');
    (parts.next().unwrap_or(line), parts.next().unwrap_or(b""))
}

// A plant file written. It becomes no plant of the log: a line `plant` does that.
fn write_answer(words: &[u8]) -> Result<Answer, Fault> {
    match rule_write(words) {
        Ok(_) => Ok(Answer::File),
        Err(WriteError::Refused(cause)) => Ok(Answer::Ruling(Ruling::Refused(cause))),
        Err(WriteError::Missing) => Err(Fault::MissingWord),
        Err(WriteError::Extra) => Err(Fault::ExtraWord),
        Err(WriteError::BadNumber) => Err(Fault::BadNumber),
        Err(WriteError::ManyBytes) => Err(Fault::ManyBytes),
        Err(WriteError::ManyActions) => Err(Fault::ManyActions),
        Err(WriteError::Spilt) => Err(Fault::FileSpilt),
    }
}
