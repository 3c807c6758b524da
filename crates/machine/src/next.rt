use stops::Stop;

/// What an executed word comes to.
// An enum of its own and no `ControlFlow`: `Break` and `Continue` would not say what a word ends with or goes on to.
#[derive(Clone, Copy, PartialEq, Eq, Debug)]
pub enum Next {
    /// It is done, perhaps with a stop.
    Done(Option<Stop>),
    /// The word at this address is executed in its place.
    At(u64),
}
