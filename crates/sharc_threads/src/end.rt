//! How a run ended.

/// Where no thread may make a turn.
#[derive(Clone, Copy, Debug, PartialEq, Eq)]
pub enum End {
    /// Each thread that was started is gone or stopped.
    AllDone,
    /// Some thread is neither, and each such thread waits.
    Stuck,
    /// Neither: some thread has made as many events as it may, and does not wait.
    Budget,
}
