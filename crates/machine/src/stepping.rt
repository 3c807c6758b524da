ghost use Rattle.std.specs.Prelude.{◌≡◌, unwrap_or};
ghost use Rattle.machine.specs.ExecuteLaw.{ExecutesInPlace};
ghost use Rattle.machine.specs.Steps.{state, stepped, stop_of, step_of, ran, replied, run_of, RunSplits};
ghost use Rattle.machine.specs.User.{outside};

use crate::execute::execute;
use crate::place::Place;
use crate::reference::read;
use memory::Core;
use operations::Status;
use stops::Stop;
use words::HALF_LIMIT;

/// Puts the saved PC and flags back at its end. Once the step is accepted, none are saved any more.
struct Guard<'a> {
    place: &'a mut Place,
    saved: Option<Status>,
}

impl Drop for Guard<'_> {
    fn drop(self)
        ensures { self.exit.0.now
            ≡ record self.entry.place.now { status = unwrap_or self.entry.saved self.entry.place.now.status } }
    {
        if let Some(saved) = self.saved {
            self.place.status = saved;
        }
        // Taken apart, as a drop has to end.
        let Guard { place: _, saved: _ } = self;
    }
}

/// One step of a program: the word at PC is fetched and executed. A fault puts PC and flags back, and the words
/// that were written before it stand.
#[tactic(auto, using(crate::proofs::StepLaws::step_laws), unfolding(crate::specs::Steps::step_of))]
pub fn step<C: Core>(core: &mut C, place: &mut Place) -> Result<(), Stop>
    ensures does { stepped (state place.new (C.words core.new)) (stop_of result)
        ≡ step_of (state place.old (C.words core.old)) }
    ensures xct { ExecutesInPlace }
    ensures keeps { outside place.new.space (C.words core.new) (C.rest core.new)
        ≡ outside place.old.space (C.words core.old) (C.rest core.old) }
{
    let saved = place.status;
    let word = read(core, &place.space, saved.pc)?;
    let mut guard = Guard {
        place,
        saved: Some(saved),
    };
    // Said here again: `following` of `instructions` is of any address, and this is the step rule's own.
    guard.place.status.pc = (saved.pc % HALF_LIMIT + 1) % HALF_LIMIT;
    let ending = execute(core, guard.place, word)?;
    guard.saved = None;
    ending.map_or(Ok(()), Err)
}

/// What a run did: how many steps are done, and why it ended.
#[derive(Clone, Copy, PartialEq, Eq, Debug)]
pub struct Reply {
    pub steps: u64,
    pub stop: Stop,
}

/// Steps of a program until so many are done or one stops it.
#[tactic(auto, using(crate::proofs::StepLaws::run_laws))]
pub fn run<C: Core>(core: &mut C, place: &mut Place, most: u64) -> Reply
    ensures does { ran (state place.new (C.words core.new)) result.steps result.stop
        ≡ replied (run_of most (state place.old (C.words core.old))) }
    ensures splits { RunSplits }
    ensures keeps { outside place.new.space (C.words core.new) (C.rest core.new)
        ≡ outside place.old.space (C.words core.old) (C.rest core.old) }
{
    for done in 0..most {
        if let Err(stop) = step(core, place) {
            let steps = done + u64::from(stop.step_counts());
            return Reply { steps, stop };
        }
    }
    Reply {
        steps: most,
        stop: Stop::StepsDone,
    }
}
