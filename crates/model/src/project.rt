#![tactic(auto, using(crate::proofs::Nan::zero_over_zero))]
// The tables of a project.
ghost use Rattle.std.specs.Prelude.{◌≡◌};
ghost use Rattle.model.specs.Blank.{blank_node, blank_link, blank_control, blank_premise, blank_options, no_counts, empty_project};

use crate::control::{Control, ControlCondition};
use crate::link::{Link, LinkType};
use crate::node::{Node, NodeType, Reservoir};
use crate::options::Options;
use crate::rule::{
    ConditionValue, NodeAttribute, Premise, RuleConditionOperator, RuleConditionTarget,
};
use number::ComparisonOperator;

#[derive(Clone, Copy)]
pub struct Counts {
    pub patterns: usize,
    pub nodes: usize,
    pub links: usize,
    pub controls: usize,
    pub premises: usize,
}

// Pattern k has lengths[k] multipliers, from 168 * k on.
#[derive(Clone, Copy)]
pub struct Project {
    pub options: Options,
    pub counts: Counts,
    pub lengths: [usize; 32],
    pub multipliers: [f64; 5376],
    pub nodes: [Node; 256],
    pub links: [Link; 384],
    pub controls: [Control; 64],
    pub premises: [Premise; 128],
}

// The fillers of the tables.
pub fn blank_node() -> Node
    ensures { result ≡ blank_node }
{
    let reservoir = Reservoir {
        elevation: 0.0 / 0.0,
        head_pattern: None,
    };
    Node {
        kind: NodeType::Reservoir(reservoir),
    }
}

pub fn blank_link() -> Link
    ensures { result ≡ blank_link }
{
    Link {
        start: 0,
        end: 0,
        initial_status: 0,
        kind: LinkType::Pipe {
            diameter: 0.0 / 0.0,
        },
    }
}

pub fn blank_control() -> Control
    ensures { result ≡ blank_control }
{
    Control {
        condition: ControlCondition::HighPressure {
            node: 0,
            target: 0.0 / 0.0,
        },
        link: 0,
        status: None,
        setting: None,
    }
}

pub fn blank_premise() -> Premise
    ensures { result ≡ blank_premise }
{
    Premise {
        operator: RuleConditionOperator::Or,
        target: RuleConditionTarget::Node(0, NodeAttribute::Demand),
        comparison: ComparisonOperator::Eq,
        value: ConditionValue::Number(0.0 / 0.0),
    }
}

pub fn blank_options() -> Options
    ensures { result ≡ blank_options }
{
    Options {
        duration: 0,
        hydraulic: 0,
        report: 0,
        pattern: 0,
        pattern_start: 0,
        start_clock: 0,
        skip: false,
        pda: false,
        default_pattern: None,
        demand_multiplier: 0.0 / 0.0,
    }
}

pub fn no_counts() -> Counts
    ensures { result ≡ no_counts }
{
    Counts {
        patterns: 0,
        nodes: 0,
        links: 0,
        controls: 0,
        premises: 0,
    }
}

impl Project {
    // Tables with nothing in them.
    pub fn empty() -> Project
        ensures { result ≡ empty_project }
    {
        Project {
            options: blank_options(),
            counts: no_counts(),
            lengths: [0; 32],
            multipliers: [0.0 / 0.0; 5376],
            nodes: [blank_node(); 256],
            links: [blank_link(); 384],
            controls: [blank_control(); 64],
            premises: [blank_premise(); 128],
        }
    }
}
