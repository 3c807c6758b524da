//! A stretch of addresses.

ghost use Rattle.std.specs.Prelude.{◌≡◌, ℕ, ◌+◌, ◌-◌, ◌≤◌, min, List, length};
ghost use Rattle.window.specs.Windows.{window_of};

use memory::CORE_LIMIT;

/// So many addresses from one on. No core has an address from 262,144 on, and a span ends there.
#[derive(Clone, Copy, PartialEq, Eq, Debug)]
pub struct Span {
    pub from: u64,
    pub count: u64,
    ghost near: { from + count ≤ 262144 },
}

impl Span {
    /// The span of `count` addresses from `from` on, cut where no core has an address: of every core it takes the
    /// same words as the whole one would.
    #[tactic(auto, using(crate::proofs::WindowLaws::window_cut))]
    pub fn new(from: u64, count: u64) -> Span
        ensures start { result.from ≡ min from 262144 }
        ensures size { result.count ≡ min count (262144 - result.from) }
        ensures sees { (ws : List ℕ) → length ws ≤ 262144 → window_of result.from result.count ws ≡ window_of from count ws }
    {
        let from = from.min(CORE_LIMIT);
        let count = count.min(CORE_LIMIT - from);
        Span { from, count }
    }
}
