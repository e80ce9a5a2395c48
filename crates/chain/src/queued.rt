/// What became of a pair that was to be queued.
// No Result, since neither case is an error.
#[derive(Drop)]
#[must_use]
pub enum Queued {
    /// It waits for its output server.
    Waits,
    /// No record was free: all that waited for its output server was dropped, and the pair does not
    /// wait.
    Freed,
}
