/// The two systems of a field.
#[derive(Drop)]
pub struct Systems<I, O> {
    /// The one over the input servers.
    pub inputs: I,
    /// The one over the output servers.
    pub outputs: O,
}
