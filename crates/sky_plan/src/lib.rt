//! The plan of the sky: its stripes in memory, and the chunk and the subchunk of a position, found by its height and a
//! division.
//!
//! Callers see a `SkyPlan` as a `Partition`, a `Stripe` as a stripe of it, and a `Region` as its bounds
//! (`specs/Regions.antt`). Below: `sky_rules` for the definition of a partition, `wedge_rules` for wedges. No rows and
//! no overlap: which positions are near a chunk is not decided here.
#![tactic(auto)]

mod heights;
pub mod plan;
mod reading;
pub mod region;
mod site;
pub mod stripe;
pub mod sub_place;

pub use plan::SkyPlan;
pub use region::Region;
pub use sky_rules::SkyFault;
pub use stripe::Stripe;
pub use sub_place::SubPlace;
