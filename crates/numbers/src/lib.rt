// Leaves on plain numbers: ids (module 3) and signed sides.
#![tactic(auto)]

mod ids; // ids.rt: an id's three parts
mod sides; // sides.rt: signed numbers

pub use ids::{id_bucket, id_generation, id_item, id_of, next_generation};
pub use sides::{natural, signed};
