//! What the search offers at each step, what it tells of it, and who chooses and listens: offers, events, guides and
//! watches.
#![tactic(auto)]

mod event;
mod expect;
mod guide;
mod laws;
mod menu;
#[cfg(test)]
mod tests;
mod watch;

pub use event::{Event, Word};
pub use expect::Expect;
pub use guide::{Fixed, Guide, MemGuide, Turns};
pub use laws::expected_is_a_front;
pub use menu::{Menu, Offer};
pub use watch::{MemWatch, Quiet, Watch};
