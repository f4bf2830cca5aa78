//! The words of a command line: what they spell, as one definition for every command and option, and its reading.
#![tactic(auto)]

mod candidate;
mod choice;
mod command;
mod confirming;
mod delays;
mod items;
mod laws;
mod reading;
mod values;
mod verb;

pub use candidate::{Candidate, read_by_clap};
pub use choice::{
    CHOICES, CLASSES, Choice, Class, ClassDelay, MAX_UNITS_IN_A_ROW, ValueKind, choices,
};
pub use command::{Chosen, Command};
pub use laws::words_spell_one_command;
pub use reading::read_words;
pub use verb::{PlainKind, VERBS, Verb};
