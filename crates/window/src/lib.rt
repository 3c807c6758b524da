//! A core that is a part of another: `Window`, the words of a lent core that lie in a `Span`.

#![tactic(auto)]

mod span;
mod window;

pub use span::Span;
pub use window::Window;
