// The options record of the image.

// Times are in seconds; `hydraulic`, `report` and `pattern` are timesteps.
#[derive(Clone, Copy)]
pub struct Options {
    pub duration: u32,
    pub hydraulic: u32,
    pub report: u32,
    pub pattern: u32,
    pub pattern_start: u32,
    pub start_clock: u32,
    pub skip: bool,
    pub pda: bool,
    pub default_pattern: Option<usize>,
    pub demand_multiplier: f64,
}
