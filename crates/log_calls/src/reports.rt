// The report, into a list of rows that hold a pattern. Where a row past the report's own does not hold it any more, the report wrote what it
// should not, and the replay ends.
use crate::answers::Answer;
use crate::faults::Fault;
use base_rulings::Ruling;
use call_report::{Reported, Row, report_into};
use log_boardtext::live;
use part_boardwords::BOARD_WORDS;
use spec_plain::limits;
use std::fmt;

// The longest list that a log can report into: more points are never live.
const MOST_ROWS: usize = limits::MOST_POINTS;

// No row holds these numbers: they are larger than every place and every time.
const PATTERN: Row = Row {
    job: 0xA5A5A5A5,
    point: 0xA5A5A5A5,
    earliest: 0xA5A5A5A5,
    latest: 0xA5A5A5A5,
};

// A report into a list of `room` rows.
pub fn report_answer(room: u32, board: &[u32; BOARD_WORDS]) -> Result<Answer, Fault> {
    if MOST_ROWS < room as usize {
        return Err(Fault::ManyRows);
    }
    let Reported { ruling, rows } = report_into(board, room, [PATTERN; MOST_ROWS]);
    let stored = match ruling {
        Ruling::Accepted => live(board),
        Ruling::Refused(_) => 0,
    };
    if !rows[stored..].iter().all(|row| *row == PATTERN) {
        return Err(Fault::RowsWritten);
    }
    match ruling {
        Ruling::Accepted => Ok(Answer::Report(room)),
        Ruling::Refused(_) => Ok(Answer::Ruling(ruling)),
    }
}

// The text of an accepted report, `= 0 N` and N times `r JOB POINT EARLIEST LATEST`. It is made again for it, as a part is found again: no answer
// holds rows.
#[derive(Clone, Copy)]
pub struct Report<'a> {
    pub board: &'a [u32; BOARD_WORDS],
    pub room: u32,
}

impl<'a> fmt::Display for Report<'a> {
    fn fmt<W: fmt::Write>(&self, f: &mut fmt::Formatter<W>) -> fmt::Result {
        let board = self.board;
        let reported = report_into(board, self.room, [PATTERN; MOST_ROWS]);
        let n = live(board);
        writeln!(f, "= 0 {n}")?;
        for row in &reported.rows[..n] {
            writeln!(
                f,
                "r {} {} {} {}",
                row.job, row.point, row.earliest, row.latest
            )?;
        }
        Ok(())
    }
}
