// The types of `control.rs`.

// Targets are in feet above the node's elevation, times in seconds.
#[derive(Clone, Copy)]
pub enum ControlCondition {
    HighPressure { node: usize, target: f64 },
    LowPressure { node: usize, target: f64 },
    HighLevel { tank: usize, target: f64 },
    LowLevel { tank: usize, target: f64 },
    Time { seconds: u32 },
    ClockTime { seconds: u32 },
}

// `status`: the status that it sets, and `setting`: the setting; a status wins.
#[derive(Clone, Copy)]
pub struct Control {
    pub condition: ControlCondition,
    pub link: usize,
    pub status: Option<u32>,
    pub setting: Option<f64>,
}
