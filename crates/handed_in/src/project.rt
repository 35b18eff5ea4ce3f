// One word of the tables changed.
use crate::change::Change;
use crate::controls::changed_control;
use crate::link::changed_link;
use crate::node::changed_node;
use crate::premises::changed_premise;
use model::{Counts, Options, Project};

fn changed_options(o: Options, c: Change) -> Options {
    Options {
        duration: c.word(8, o.duration),
        hydraulic: c.word(9, o.hydraulic),
        report: c.word(10, o.report),
        pattern: c.word(11, o.pattern),
        pattern_start: c.word(12, o.pattern_start),
        start_clock: c.word(13, o.start_clock),
        skip: c.flag(21, o.skip),
        pda: c.flag(22, o.pda),
        default_pattern: c.pattern(23, o.default_pattern),
        demand_multiplier: c.number(24, o.demand_multiplier),
    }
}

fn changed_counts(n: Counts, c: Change) -> Counts {
    Counts {
        patterns: c.index(14, n.patterns),
        nodes: c.index(15, n.nodes),
        links: c.index(16, n.links),
        controls: c.index(17, n.controls),
        premises: c.index(18, n.premises),
    }
}

pub fn changed_project(p: Project, c: Change) -> Project {
    let mut q = p;
    q.options = changed_options(q.options, c);
    q.counts = changed_counts(q.counts, c);
    let pattern = c.index % 32;
    q.lengths[pattern] = c.index(19, q.lengths[pattern]);
    let multiplier = c.index % 5376;
    q.multipliers[multiplier] = c.number(20, q.multipliers[multiplier]);
    let node = c.index % 256;
    q.nodes[node] = changed_node(q.nodes[node], c);
    let link = c.index % 384;
    q.links[link] = changed_link(q.links[link], c);
    let control = c.index % 64;
    q.controls[control] = changed_control(q.controls[control], c);
    let premise = c.index % 128;
    q.premises[premise] = changed_premise(q.premises[premise], c);
    q
}
