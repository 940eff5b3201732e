// Blue zones, and the capture of a stem's edges by them (01, "Zones").
#![tactic(auto)]

mod blues;
mod capture;
mod numbers;
mod state;

pub use blues::{
    Blue, BlueZone, Blues, MAX_BLUE_ZONES, MAX_BLUES, MAX_OTHER_BLUES, Nearest, Zones,
};
pub use capture::Captured;
pub use numbers::ZONE_NUMBERS;
pub use state::{Gauge, HintParams, HintState};
