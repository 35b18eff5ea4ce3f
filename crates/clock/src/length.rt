// The length of a step.
ghost use Rattle.std.specs.Prelude.{◌≡◌};
ghost use Rattle.clock.specs.Steps.{calculate_time_step, step_length};

use crate::candidates::{smaller_positive, time_to_next};
use number::constants::MAX;

// The options that a step reads, in seconds. `hydraulic`, `report` and `pattern` are timesteps; the hydraulic one is that in
// force, and 0 for none. `fast`: the project is on the fast path.
#[derive(Clone, Copy)]
pub struct Times {
    pub duration: u32,
    pub hydraulic: u32,
    pub report: u32,
    pub pattern: u32,
    pub start_clock: u32,
    pub fast: bool,
}

impl Times {
    // From the tanks' candidate, the smallest of all of them, and the controls', the smallest that is not 0.
    #[tactic(auto, unfolding(crate::specs::Steps::calculate_time_step, crate::specs::Steps::smallest_positive))]
    fn calculate_time_step(self, tanks: u64, controls: u64, time: u32) -> u64
        ensures { result ≡ calculate_time_step self tanks controls time }
    {
        if self.fast {
            return u64::from(self.report);
        }
        let hydraulic = smaller_positive(u64::from(self.hydraulic), MAX);
        let with_controls = smaller_positive(controls, hydraulic);
        let with_tanks = smaller_positive(tanks, with_controls);
        let with_pattern = smaller_positive(time_to_next(self.pattern, time), with_tanks);
        smaller_positive(time_to_next(self.report, time), with_pattern)
    }

    // The length that `next_hydraulic_timestep` answers.
    #[tactic(auto, unfolding(crate::specs::Steps::step_length))]
    pub fn step_length(self, tanks: u64, controls: u64, time: u32) -> u32
        ensures { result ≡ step_length self tanks controls time }
    {
        if self.duration <= time {
            return 0;
        }
        let remaining = u64::from(self.duration - time);
        self.calculate_time_step(tanks, controls, time)
            .min(remaining) as u32
    }
}
