ghost use Rattle.std.specs.Prelude.{◌^◌, ◌<◌, ◌≤◌, vec_len};

use crate::TextRequest;
use scq_topics::Topics;

/// What is asked of files. Workers are in `1..=4096`, the order in `1..=MOST_RUN_ORDER`, the
/// most bytes of a part in `1..=65536`, and there are 1 to 64 files, each with a name. `batch` asks
/// that short parts share a buffer, and `report` for what each worker did.
#[derive(Drop)]
pub struct RunRequest {
    pub workers: u32,
    pub order: u32,
    pub size: u32,
    pub topics: Topics,
    pub batch: bool,
    pub report: bool,
    pub files: Vec<String>,
    ghost few: { vec_len files ≤ 64 },
}

/// What is asked of files whose messages go through two stages. All is in the ranges of a run.
#[derive(Drop)]
pub struct StagesRequest {
    pub workers: u32,
    pub order: u32,
    pub size: u32,
    pub files: Vec<String>,
    ghost few: { vec_len files ≤ 64 },
}

/// What is asked of a generated file: the seed is in `0..=2147483647`, the lines in `1..=1000000`,
/// the workers in `1..=4096`.
#[derive(Clone, Copy, PartialEq, Eq)]
pub struct SelfRequest {
    pub seed: u32,
    pub lines: u32,
    pub workers: u32,
    ghost seed_in_range: { seed < 2 ^ 31 },
}

/// Recordings to judge: 1 to 4,096 files, each with a name. Where `room` is given, each queue had
/// room for so many values, from 1, and refused puts are judged too. `strict` asks that the run
/// ends with a fault where a line of the report doesn't hold, and `order`, which stands with neither
/// of them, for an order in place of the report.
#[derive(Drop)]
pub struct JudgeRequest {
    pub room: Option<u32>,
    pub strict: bool,
    pub order: bool,
    pub files: Vec<String>,
    ghost few: { vec_len files ≤ 4096 },
}

/// What the words of a command line ask for.
#[derive(Drop)]
pub enum Request {
    Run(RunRequest),
    SelfRun(SelfRequest),
    Judge(JudgeRequest),
    Text(TextRequest),
    Stages(StagesRequest),
}
