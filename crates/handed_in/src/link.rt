// One word of a link changed.
use crate::change::Change;
use model::{Link, LinkType};

fn changed_kind(kind: LinkType, c: Change) -> LinkType {
    match kind {
        LinkType::Pipe { diameter } => LinkType::Pipe {
            diameter: c.number(44, diameter),
        },
        LinkType::Pump {
            initial_flow,
            speed,
        } => LinkType::Pump {
            initial_flow: c.number(44, initial_flow),
            speed: c.number(45, speed),
        },
        LinkType::Valve { diameter, setting } => LinkType::Valve {
            diameter: c.number(44, diameter),
            setting: c.number(45, setting),
        },
    }
}

pub fn changed_link(l: Link, c: Change) -> Link {
    Link {
        start: c.index(41, l.start),
        end: c.index(42, l.end),
        initial_status: c.word(43, l.initial_status),
        kind: changed_kind(l.kind, c),
    }
}
