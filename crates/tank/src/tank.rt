// The functions of a tank: volume by level, time to a level, and the head after a change of volume.
ghost use Rattle.std.specs.Prelude.{◌≡◌};
ghost use Rattle.tank.specs.Tanks.{volume_at_level, gap_time, time_to_reach_level, time_to_fill_or_drain, new_head, head_after};

use crate::units::{CubicFeet, CubicFeetPerSecond, Feet};
use number::constants::{MAX, PI};

// Elevation, levels and diameter are in feet; `overflow`: it does not close when it is full.
#[derive(Clone, Copy)]
pub struct Tank {
    pub elevation: Feet,
    pub initial_level: Feet,
    pub min_level: Feet,
    pub max_level: Feet,
    pub diameter: Feet,
    pub overflow: bool,
}

// The seconds until a flow has made up a gap in volume: 0 for a gap under half a cubic foot, MAX where it flows the other way.
pub fn gap_time(gap: CubicFeet, flow: CubicFeetPerSecond) -> u64
    ensures { result ≡ gap_time gap flow }
{
    let CubicFeet(volume) = gap;
    let CubicFeetPerSecond(rate) = flow;
    if number::abs(volume) < 0.5 {
        return 0;
    }
    if (volume > 0.0) & (rate > 0.0) | (volume < 0.0) & (rate < 0.0) {
        return number::round_to_u64(volume / rate);
    }
    MAX
}

impl Tank {
    fn volume_at_level(self, level: Feet) -> CubicFeet
        ensures { result ≡ volume_at_level self level }
    {
        let Feet(height) = level;
        let Feet(diameter) = self.diameter;
        if height < 0.0 {
            return CubicFeet(0.0);
        }
        CubicFeet(height * PI * diameter * diameter / 4.0)
    }

    // The seconds until the level is at a target: 0 where it is there already, MAX where it never will be.
    #[tactic(auto, unfolding(crate::specs::Tanks::time_to_reach_level))]
    pub fn time_to_reach_level(self, current: Feet, target: Feet, flow: CubicFeetPerSecond) -> u64
        ensures { result ≡ time_to_reach_level self current target flow }
    {
        if target.0 > self.max_level.0 || target.0 < self.min_level.0 {
            return MAX;
        }
        let want = self.volume_at_level(target);
        let have = self.volume_at_level(current);
        gap_time(CubicFeet(want.0 - have.0), flow)
    }

    #[tactic(auto, unfolding(crate::specs::Tanks::time_to_fill_or_drain, number::specs::Constants::decimal))]
    pub fn time_to_fill_or_drain(self, current: Feet, flow: CubicFeetPerSecond) -> u64
        ensures { result ≡ time_to_fill_or_drain self current flow }
    {
        if flow.0 == 0.0 {
            return MAX;
        }
        let full = self.time_to_reach_level(current, self.max_level, flow);
        let empty = self.time_to_reach_level(current, self.min_level, flow);
        full.min(empty)
    }

    // The head after a change of volume.
    fn new_head(self, change: CubicFeet, head: Feet) -> Feet
        ensures { result ≡ new_head self change head }
    {
        let Feet(elevation) = self.elevation;
        let Feet(diameter) = self.diameter;
        let area = PI * diameter * diameter / 4.0;
        let level = head.0 - elevation + change.0 / area;
        Feet(elevation + number::clamp(level, self.min_level.0, self.max_level.0))
    }

    // The head after a demand over some seconds, as `update_tanks` has it.
    #[tactic(auto, unfolding(crate::specs::Tanks::head_after))]
    pub fn head_after(self, demand: CubicFeetPerSecond, seconds: u64, head: Feet) -> Feet
        ensures { result ≡ head_after self demand seconds head }
    {
        let change = CubicFeet(demand.0 * number::u64_to_f64(seconds));
        self.new_head(change, head)
    }
}
