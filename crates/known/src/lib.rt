// Values that are known of the parts, each under its name.
#![tactic(auto)]

mod filling;
mod freeing;
mod values;

pub use values::{KnownValues, known_values};
