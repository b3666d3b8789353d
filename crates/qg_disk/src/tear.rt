/// What a crash leaves of what no sync had made sure of (this project's own).
#[derive(Clone, Copy, PartialEq, Eq)]
pub enum Tear {
    /// What was there before: no write is done, and no cut.
    Old,
    /// All of it: each write is done, and each cut.
    New,
    /// Of each write its first so many bytes, and behind them what was there before. Each cut is done.
    Split(usize),
}
