// The executor that fields describe, and the fields that describe an executor.

ghost use Rattle.std.specs.Prelude.{◌≡◌, Ok};
ghost use Rattle.octets.specs.Outcome.{map_ok};
ghost use Rattle.sedgechisel.specs.CommandLogs.{log_of, log_described, log_record_of, record_described, stage_number, stage_mark, stage_at};

use super::{KeptLog, LogRecord};
use crate::numbers::DAMAGED;
use crate::receiver::number_of_flag;
use command_log::{Executor, Record, Stage};

// The executor that the fields describe, unless they are damaged.
#[inline(never)]
pub(super) fn described(log: &KeptLog) -> Result<Executor, u8>
    ensures { result ≡ log_described log.now }
{
    if log.kept.begun > 1 {
        return Err(DAMAGED);
    }
    let Some(stage) = stage_from(log.stage, log.mark) else {
        return Err(DAMAGED);
    };
    Ok(Executor::restore(record_from(&log.kept), stage))
}

// What C keeps of an executor.
#[tactic(auto, using(crate::proofs::LogFields::described_again))]
#[inline(never)]
pub(super) fn kept(board: &Executor) -> KeptLog
    ensures fields { result ≡ log_of board.now }
    ensures describes { log_described result ≡ Ok board.now }
{
    KeptLog {
        kept: fields_of(&board.kept()),
        mark: mark_of(board.stage()),
        stage: number_of_stage(board.stage()),
    }
}

fn record_from(fields: &LogRecord) -> Record
    ensures { result ≡ record_described fields.now }
{
    Record {
        boot: fields.boot,
        last: fields.last,
        begun: fields.begun == 1,
        known: fields.known,
        history: fields.history,
    }
}

pub(super) fn fields_of(kept: &Record) -> LogRecord
    ensures { result ≡ log_record_of kept.now }
{
    LogRecord {
        known: kept.known,
        boot: kept.boot,
        last: kept.last,
        history: kept.history,
        begun: number_of_flag(kept.begun),
    }
}

fn stage_from(number: u8, mark: u32) -> Option<Stage>
    ensures { result ≡ stage_at number mark }
{
    match number {
        1 => Some(Stage::Lost(mark)),
        2 => Some(Stage::RepairsFirst),
        3 => Some(Stage::RepairsSecond),
        4 => Some(Stage::WritesFirst),
        5 => Some(Stage::WritesSecond),
        6 => Some(Stage::Executes),
        7 => Some(Stage::Rests),
        8 => Some(Stage::Ordered),
        _ => None,
    }
}

fn number_of_stage(stage: Stage) -> u8
    ensures { result ≡ stage_number stage }
{
    match stage {
        Stage::Lost(_) => 1,
        Stage::RepairsFirst => 2,
        Stage::RepairsSecond => 3,
        Stage::WritesFirst => 4,
        Stage::WritesSecond => 5,
        Stage::Executes => 6,
        Stage::Rests => 7,
        Stage::Ordered => 8,
    }
}

fn mark_of(stage: Stage) -> u32
    ensures { result ≡ stage_mark stage }
{
    match stage {
        Stage::Lost(mark) => mark,
        _ => 0,
    }
}
