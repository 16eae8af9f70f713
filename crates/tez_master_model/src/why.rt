/// Why an event or a report is ignored.
#[derive(Clone, Copy, Debug, PartialEq, Eq)]
pub enum Why {
    /// The job has ended.
    Over,
    /// No master is up.
    Down,
    /// The attempt is of an earlier master.
    OldEpoch,
    /// No such attempt was queued.
    UnknownAttempt,
    /// The attempt has succeeded, failed or been killed.
    AttemptEnded,
    /// The attempt is not processing, or the report is of another order.
    Stranger,
    /// The event may not come now.
    NotEnabled,
}
