// The state: `SolverState` of state.rs, record by record, and the clock.
ghost use Rattle.std.specs.Prelude.{◌≡◌};
ghost use Rattle.model.specs.Blank.{blank_state};

use clock::Clock;

// Head in feet, demands in cubic feet per second.
#[derive(Clone, Copy)]
pub struct NodeState {
    pub head: f64,
    pub demand: f64,
    pub demand_flow: f64,
}

// `status` is 0 to 9, in `LinkStatus` order.
#[derive(Clone, Copy)]
pub struct LinkState {
    pub flow: f64,
    pub status: u32,
    pub setting: f64,
}

#[derive(Clone, Copy)]
pub struct State {
    pub nodes: [NodeState; 256],
    pub links: [LinkState; 384],
    pub clock: Clock,
}

impl State {
    // A state with nothing in it, its clock at 0.
    #[tactic(auto, using(crate::proofs::Nan::zero_over_zero), unfolding(crate::specs::Blank::blank_state))]
    pub fn blank() -> State
        ensures { result ≡ blank_state }
    {
        let node = NodeState {
            head: 0.0 / 0.0,
            demand: 0.0 / 0.0,
            demand_flow: 0.0 / 0.0,
        };
        let link = LinkState {
            flow: 0.0 / 0.0,
            status: 0,
            setting: 0.0 / 0.0,
        };
        let clock = Clock {
            instant: 0,
            count: 0,
        };
        State {
            nodes: [node; 256],
            links: [link; 384],
            clock,
        }
    }
}
