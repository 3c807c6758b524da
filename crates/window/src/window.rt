//! A window on a core, which is a core itself.

ghost use Rattle.std.specs.Prelude.{◌≡◌, ℕ, List};
ghost use Rattle.memory.specs.Access.{Writes};
ghost use Rattle.window.specs.Window.{window_words, window_rest, Unseen};
ghost use Rattle.window.specs.Windows.{short-window, narrow-window};
ghost use Rattle.std.specs.Borrow.{GName};

use crate::span::Span;
use memory::Core;
use words::{Refusal, check_word};

/// The words of a lent core that lie in a span. What of the span is past the core's end is not there.
#[derive(Drop)]
pub struct Window<'a, C> {
    pub core: &'a mut C,
    pub span: Span,
}

impl<'a, C: Core> Window<'a, C> {
    /// The window on the words of `core` in `span`.
    pub fn new(core: &'a mut C, span: Span) -> Window<'a, C>
        ensures holds { result.core.now ≡ core.old }
        ensures lent { result.core.ghost_name ≡ core.entry.ghost_name }
        ensures place { result.span ≡ span }
    {
        Window { core, span }
    }
}

#[tactic(auto, using(crate::proofs::WindowLaws::windows))]
impl<'a, C: Core> Core for Window<'a, C> {
    ghost words = { λ c. window_words c.span (C.Core.words c.core.now) };

    ghost Rest = { GName × ℕ × ℕ × List ℕ × List ℕ × C.Core.Rest };

    ghost rest = { λ c. window_rest c.core.ghost_name c.span (C.Core.words c.core.now) (C.Core.rest c.core.now) };

    ghost short = { λ c. short-window c.span.from c.span.count (C.Core.words c.core.now) (C.Core.short c.core.now) };

    ghost narrow = { λ c. narrow-window c.span.from c.span.count (C.Core.words c.core.now) (C.Core.narrow c.core.now) };

    fn len(&self) -> u64 {
        self.core
            .len()
            .saturating_sub(self.span.from)
            .min(self.span.count)
    }

    fn read(&self, a: u64) -> Result<u64, Refusal> {
        // Not `check_address`: the core refuses an address past its words, so only the span's end is tested here.
        if a >= self.span.count {
            return Err(Refusal::AddressOutsideCore);
        }
        self.core.read(self.span.from + a)
    }

    /// A window that lies apart on the same core does not see the write.
    fn write(&mut self, a: u64, w: u64) -> Result<(), Refusal>
        ensures does { Writes (window_words self.old.span (C.Core.words self.old.core.now)) a w
            (window_words self.new.span (C.Core.words self.new.core.now)) result }
        ensures keeps { window_rest self.new.core.ghost_name self.new.span (C.Core.words self.new.core.now) (C.Core.rest self.new.core.now)
            ≡ window_rest self.old.core.ghost_name self.old.span (C.Core.words self.old.core.now) (C.Core.rest self.old.core.now) }
        ensures unseen { Unseen self.old.span (C.Core.words self.old.core.now) (C.Core.words self.new.core.now) }
    {
        // Not `check_write`, whose test of the address asks every core below for its length, at each window on a window.
        check_word(w)?;
        if a >= self.span.count {
            return Err(Refusal::AddressOutsideCore);
        }
        self.core.write(self.span.from + a, w)
    }
}

#[cfg(test)]
mod tests {
    use super::*;
    use memory::PlainCore;
    use words::WORD_LIMIT;

    // Words 1 and 2 of four, and what of a span lies past the core's end is not there.
    #[test]
    fn a_window_is_a_part_of_its_core(rt: HostRuntime) {
        let mut cells = [10, 11, 12, 13];
        let mut core = PlainCore::new(&mut cells);
        let mut window = Window::new(&mut core, Span::new(1, 2));
        assert_eq!(rt; window.len(), 2);
        assert_eq!(rt; window.read(0), Ok(11));
        assert_eq!(rt; window.read(2), Err(Refusal::AddressOutsideCore));
        assert_eq!(rt; window.write(1, 7), Ok(()));
        assert_eq!(rt; window.write(2, 7), Err(Refusal::AddressOutsideCore));
        assert_eq!(rt; window.write(2, WORD_LIMIT), Err(Refusal::NotAWord));
        assert_eq!(rt; Window::new(&mut core, Span::new(3, u64::MAX)).len(), 1);
        assert_eq!(rt; cells, [10, 11, 7, 13]);
    }
}
