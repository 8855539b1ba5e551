//! A lock over one value whose history only grows, on which its callers can rely.
//!
//! **The algorithm.** The lock has three words and one slot. `ticket` is the next ticket to be drawn, `serving` the one that is
//! served, `count` the number of entries, and the slot has the value. A seat enters by drawing a ticket and waiting until it is
//! served. The slot is then its own: it takes the value out, and looks at `count`. The writer's seat may add one entry, by adding
//! to `count`. A seat leaves by putting the value back and adding to `serving`. Entries exist in the proofs alone.
//!
//! **The rule**, which each step keeps (`specs/Law.antt`):
//! 1. `serving` and the number of views with a ticket make `ticket`.
//! 2. Tickets that are out differ. Each is at least `serving` and less than `ticket`.
//! 3. A view in its turn has the ticket that is served.
//! 4. The value is at home exactly where no view is in its turn, and then stands for the writer's list.
//! 5. `count` is the length of the writer's list.
//! 6. The list of a view in its turn is the writer's list.
//! 7. Each list that was seen is a beginning of the writer's list. What was seen before a note was met, and what the note had
//!    seen, are beginnings of what the seat has seen since.
//! 8. Exactly one view is the writer's.
//! 9. No view has taken more than 2^56 turns. The writer has made at most 127 seats. A note has taken no turn.
//! 10. `ticket` and the turns that all views have left make 2^63, so no ticket is drawn twice.
//! 11. The writer's list has at most as many entries as the writer has taken turns, and fewer while it has a ticket that has
//!     brought no entry.
//!
//! **Not promised**: that a ticket is ever served or a sleeper wakes, how soon, in which order, that two seats do not wait for each
//! other, and any order between two seats that were told nothing of each other.
//!
//! **Who could use it**: any owner of a locked value whose history only grows. `README.md` says more.
#![tactic(auto)]

mod law;
mod lock;
mod notes;
mod opening;
mod plays;
mod recorded;
mod seats;
mod turns;
mod writer;

pub use lock::TurnLock;
pub use recorded::Recorded;
pub use seats::{Note, Seat, Turn, WriterSeat};

#[cfg(test)]
mod tests;
