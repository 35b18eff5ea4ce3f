// `node.rs`, `reservoir.rs`, `junction.rs`, `demand.rs`.
ghost use Rattle.std.specs.Prelude.{◌≡◌};
ghost use Rattle.model.specs.Nodes.{elevation, initial_head, is_tank, is_junction};

use tank::Tank;

#[derive(Clone, Copy)]
pub struct Reservoir {
    pub elevation: f64,
    pub head_pattern: Option<usize>,
}

#[derive(Clone, Copy)]
pub struct Demand {
    pub base: f64,
    pub pattern: Option<usize>,
}

// A junction's demands, in order.
#[derive(Clone, Copy)]
pub enum Demands {
    NoDemand,
    One(Demand),
    Two(Demand, Demand),
    Three(Demand, Demand, Demand),
    Four(Demand, Demand, Demand, Demand),
}

#[derive(Clone, Copy)]
pub struct Junction {
    pub disabled: bool,
    pub elevation: f64,
    pub demands: Demands,
}

#[derive(Clone, Copy)]
pub enum NodeType {
    Reservoir(Reservoir),
    Tank(Tank),
    Junction(Junction),
}

#[derive(Clone, Copy)]
pub struct Node {
    pub kind: NodeType,
}

impl Node {
    pub fn elevation(self) -> f64
        ensures { result ≡ elevation self }
    {
        match self.kind {
            NodeType::Reservoir(r) => r.elevation,
            NodeType::Tank(t) => t.elevation.0,
            NodeType::Junction(j) => j.elevation,
        }
    }

    #[tactic(auto, unfolding(number::specs::Constants::decimal))]
    pub fn initial_head(self) -> f64
        ensures { result ≡ initial_head self }
    {
        match self.kind {
            NodeType::Reservoir(r) => r.elevation,
            NodeType::Tank(t) => t.elevation.0 + t.initial_level.0,
            NodeType::Junction(_) => 0.0,
        }
    }

    pub fn is_tank(self) -> bool
        ensures { result ≡ is_tank self }
    {
        matches!(self.kind, NodeType::Tank(_))
    }

    pub fn is_junction(self) -> bool
        ensures { result ≡ is_junction self }
    {
        matches!(self.kind, NodeType::Junction(_))
    }
}
