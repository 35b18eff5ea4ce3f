// `link.rs`, `pipe.rs`, `pump.rs`, `valve.rs`.
ghost use Rattle.std.specs.Prelude.{◌≡◌};
ghost use Rattle.model.specs.Links.{initial_flow, initial_setting};

use number::constants::{PI, Q_ZERO};

// Statuses are 0 to 9 in `LinkStatus` order; these three are named.
// kept: tables and states handed in may hold any number there, which number 10 judges (`table_ranges::status_ok`, `judge::state_ok`).
pub const TEMP_CLOSED: u32 = 1;

pub const CLOSED: u32 = 2;

pub const FIXED_CLOSED: u32 = 9;

// Diameters in feet, flows in cubic feet per second.
#[derive(Clone, Copy)]
pub enum LinkType {
    Pipe { diameter: f64 },
    Pump { initial_flow: f64, speed: f64 },
    Valve { diameter: f64, setting: f64 },
}

// `start` and `end` are nodes.
#[derive(Clone, Copy)]
pub struct Link {
    pub start: usize,
    pub end: usize,
    pub initial_status: u32,
    pub kind: LinkType,
}

impl Link {
    #[tactic(auto, unfolding(crate::specs::Links::initial_flow, number::specs::Constants::decimal))]
    pub fn initial_flow(self) -> f64
        ensures { result ≡ initial_flow self }
    {
        if (self.initial_status == FIXED_CLOSED) | (self.initial_status == CLOSED) {
            return Q_ZERO;
        }
        match self.kind {
            LinkType::Pipe { diameter } | LinkType::Valve { diameter, .. } => {
                0.25 * PI * (diameter * diameter)
            }
            LinkType::Pump { initial_flow, .. } => initial_flow,
        }
    }

    #[tactic(auto, unfolding(number::specs::Constants::decimal))]
    pub fn initial_setting(self) -> f64
        ensures { result ≡ initial_setting self }
    {
        match self.kind {
            LinkType::Pipe { .. } => 0.0,
            LinkType::Pump { speed, .. } => speed,
            LinkType::Valve { setting, .. } => setting,
        }
    }
}
