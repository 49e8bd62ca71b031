//! The dialect `Toy`, over which programs and tests run.
#![tactic(auto)]

mod saved;
mod toy;
mod toy_attributes;

pub use toy::{SIZED_TYPE, Toy, ToyAttr, ToyLoc, ToySaved, ToyType};
pub use toy_attributes::{ToyInt, ToyOutlined, ToyText};
