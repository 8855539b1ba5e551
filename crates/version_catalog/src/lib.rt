//! The versions of a catalogue, which a feeder publishes, sessions pin and a compactor compacts, each in
//! a turn of its own.
#![tactic(auto)]

mod bases;
mod batch;
mod catalogue;
mod compact;
mod compactions;
mod compactor;
mod entry;
pub mod examples;
mod feeder;
mod holder;
mod install;
pub mod laws;
mod notes;
mod pin;
mod pinned;
mod publish;
mod refusal;
mod settings;
mod stack_id;
mod stacks;
mod state;
pub mod turns;
mod whole;

pub use batch::Batch;
pub use catalogue::Catalogue;
pub use compactor::Compactor;
pub use entry::Entry;
pub use feeder::Feeder;
pub use holder::Holder;
pub use install::Install;
pub use pinned::Pinned;
pub use refusal::PublishRefusal;
pub use settings::Settings;
pub use stack_id::StackId;
pub use state::CatalogueState;

/// A seat of a catalogue that pins.
pub type Session = turn_lock::Seat<CatalogueState>;

/// What a seat of a catalogue has seen.
pub type Note = turn_lock::Note<CatalogueState>;
