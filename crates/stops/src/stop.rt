ghost use Rattle.stops.specs.Stops.{stop_number, stop_word, stop_text, state_after, step_counts};
ghost use Rattle.std.specs.Prelude.{◌≡◌, Some};

use crate::state::State;
use std::fmt;

/// Why a run ended.
#[derive(Clone, Copy, PartialEq, Eq, Debug)]
pub enum Stop {
    /// All the steps that were asked for are done. A case of its own and no `Option`: its number and its state are rows
    /// of the same tables.
    StepsDone,
    /// The program made this monitor call.
    MonitorCall(u64),
    /// The program executed this word, whose code is not installed.
    NotInstalled(u64),
    /// The program touched this user address, which it does not have.
    IllegalAddress(u64),
    /// One address calculation came to a 65th address word.
    AddressWords,
    /// One step came to a 65th executed word.
    ExecutedWords,
    /// A pushdown list is full or empty.
    PushdownOverflow,
}

impl Stop {
    /// The number by which the stop is known outside. A method, since `word` is a number of the stop too, and a conversion
    /// would not say which of them it gives.
    pub fn number(self) -> u64
        ensures { result ≡ stop_number self }
    {
        match self {
            Stop::StepsDone => 0,
            Stop::MonitorCall(_) => 1,
            Stop::NotInstalled(_) => 2,
            Stop::IllegalAddress(_) => 3,
            Stop::AddressWords => 4,
            Stop::ExecutedWords => 5,
            Stop::PushdownOverflow => 6,
        }
    }

    /// The word that a run's reply gives with it.
    pub fn word(self) -> u64
        ensures { result ≡ stop_word self }
    {
        match self {
            Stop::MonitorCall(word) | Stop::NotInstalled(word) => word,
            Stop::IllegalAddress(address) => address,
            Stop::StepsDone | Stop::AddressWords | Stop::ExecutedWords | Stop::PushdownOverflow =>
                0,
        }
    }

    /// The state in which it leaves the place.
    pub fn state_after(self) -> State
        ensures { result ≡ state_after self }
    {
        match self {
            Stop::StepsDone | Stop::PushdownOverflow => State::Ready,
            Stop::MonitorCall(_) | Stop::NotInstalled(_) => State::Waiting,
            Stop::IllegalAddress(_) | Stop::AddressWords | Stop::ExecutedWords => State::Ended,
        }
    }

    /// Whether the step that ended so is done and counted. A step that is not is undone but for the words
    /// that it has already written.
    pub fn step_counts(self) -> bool
        ensures { result ≡ step_counts self }
    {
        match self {
            Stop::StepsDone
            | Stop::MonitorCall(_)
            | Stop::NotInstalled(_)
            | Stop::PushdownOverflow => true,
            Stop::IllegalAddress(_) | Stop::AddressWords | Stop::ExecutedWords => false,
        }
    }
}

// Written out, since a derived `Display` does not state its words.
impl fmt::Display for Stop {
    ghost output = { λ stop. Some (stop_text stop) };

    fn fmt<W: fmt::Write>(&self, f: &mut fmt::Formatter<W>) -> fmt::Result {
        f.write_str(match self {
            Stop::StepsDone => "all steps done",
            Stop::MonitorCall(_) => "monitor call",
            Stop::NotInstalled(_) => "code not installed",
            Stop::IllegalAddress(_) => "illegal address",
            Stop::AddressWords => "too many address words",
            Stop::ExecutedWords => "too many executed words",
            Stop::PushdownOverflow => "pushdown overflow",
        })
    }
}
