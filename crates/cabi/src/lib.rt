// The board's calls from C (include/snipefeather.h), on a board that is lent as its words, and the writing of plant files: each is the call that the
// programs make, and its answer as a number. It may use the calls, write_plant and part_boardwords, and decides nothing.
#![tactic(auto)]

ghost use Rattle.std.specs.Prelude.{◌≡◌, length, set};
ghost use Rattle.base_rulings.specs.Answer.{number_of, value_of};
ghost use Rattle.part_boardwords.specs.Words.{lent_board};
ghost use Rattle.call_board.specs.Calls.{planned, sent, clocked, retired};
ghost use Rattle.call_board.specs.InWords.{words_after, fresh_ruling, fresh_words};
ghost use Rattle.call_report.specs.Rows.{reported_in};
ghost use Rattle.write_plant.specs.Lent.{write_ruling, written_length, written_into};

use base_rulings::Ruling;
use call_board::fresh;
use call_clocking::clock;
use call_planning::plan;
use call_report::{Row, report};
use call_retiring::retire;
use call_sending::send;
use spec_plain::Settings;
use write_plant::write_plant;

// v is written into word k of the list, where there is one.
// Stays: with `get_mut` the proof did not close: of the other words nothing is known after it.
fn store(list: &mut [u32], k: usize, v: u32)
    ensures { list.new ≡ set list.old k v }
{
    if k < list.len() {
        list[k] = v;
    }
}

// A fresh board with this horizon and lead; or 5, and a board of zeros.
// Stays: the C interface takes and gives numbers and lists of numbers, here and in each call below.
#[unsafe(no_mangle)]
pub extern "C" fn sf_fresh(board: &mut [u32], horizon: u32, lead: u32) -> u32
    ensures number { result ≡ number_of (fresh_ruling (record { horizon = horizon; lead = lead }) board.old) }
    ensures words { board.new ≡ fresh_words (record { horizon = horizon; lead = lead }) board.old }
{
    fresh(board, Settings { horizon, lead }).number()
}

// The first of refusals 1 to 4, 6, 7 to 10, 23 and 11 to 17, or the board with the offer's job. The value of the refusal goes into `cause`.
#[unsafe(no_mangle)]
pub extern "C" fn sf_plan(board: &mut [u32], plant: &[u8], offer: &[u8], cause: &mut [u32]) -> u32
    ensures number { result ≡ number_of (planned (lent_board board.old) plant.now offer.now).ruling }
    ensures words { board.new ≡
        words_after board.old (planned (lent_board board.old) plant.now offer.now) }
    ensures cause { cause.new ≡
        set cause.old 0 (value_of (planned (lent_board board.old) plant.now offer.now).ruling) }
{
    let ruling = plan(board, plant, offer);
    store(cause, 0, ruling.value().unwrap_or(0));
    ruling.number()
}

// 6 and 18, or the board with the unsent jobs up to the place sent.
#[unsafe(no_mangle)]
pub extern "C" fn sf_send(board: &mut [u32], place: u32) -> u32
    ensures number { result ≡ number_of (sent (lent_board board.old) place).ruling }
    ensures words { board.new ≡ words_after board.old (sent (lent_board board.old) place) }
{
    send(board, place).number()
}

// 6, 19 and 20, or the board with its clock moved.
#[unsafe(no_mangle)]
pub extern "C" fn sf_clock(board: &mut [u32], c: u32) -> u32
    ensures number { result ≡ number_of (clocked (lent_board board.old) c).ruling }
    ensures words { board.new ≡ words_after board.old (clocked (lent_board board.old) c) }
{
    clock(board, c).number()
}

// 6 and 21, or the board without its oldest job.
#[unsafe(no_mangle)]
pub extern "C" fn sf_retire(board: &mut [u32]) -> u32
    ensures number { result ≡ number_of (retired (lent_board board.old)).ruling }
    ensures words { board.new ≡ words_after board.old (retired (lent_board board.old)) }
{
    retire(board).number()
}

// 6, 22, or the rows of the board in front of the list, and the rest of it as it was. The words of the board stay as they are.
#[unsafe(no_mangle)]
pub extern "C" fn sf_report(board: &[u32], rows: &mut [Row]) -> u32
    ensures { (result ≡ number_of (reported_in board.now rows.old).ruling)
        × (rows.new ≡ (reported_in board.now rows.old).rows) }
{
    report(board, rows).number()
}

// 2, then 3 and 4 action by action, then 22; or the plant file of the actions in front of the buffer, and the rest of it as it was. The value of the refusal
// and the file's length go into `written`.
#[unsafe(no_mangle)]
pub extern "C" fn sf_write_plant(actions: &[u32], plant: &mut [u8], written: &mut [u32]) -> u32
    ensures number { result ≡ number_of (write_ruling actions.now (length plant.old)) }
    ensures plant { plant.new ≡ written_into actions.now plant.old }
    ensures written { written.new ≡
        set (set written.old 0 (value_of (write_ruling actions.now (length plant.old))))
        1 (written_length actions.now (length plant.old)) }
{
    let filed = write_plant(actions, plant);
    let ruled = Ruling::from(filed);
    store(written, 0, ruled.value().unwrap_or(0));
    store(written, 1, filed.unwrap_or(0) as u32);
    ruled.number()
}
