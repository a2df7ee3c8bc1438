// What a run answers.

// What a finished run tells: the reads, and the peaks of the stretches of all blocks and of one.
#[derive(Clone, Copy, Debug, PartialEq, Eq)]
pub struct Report {
    pub reads: u64,
    pub total: u64,
    pub one: u64,
}
