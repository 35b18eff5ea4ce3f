#![tactic(auto)]
// What a link has to satisfy (kind 6): its ends, status and numbers' ranges (number 5) and its nodes' indices (number 6).
ghost use Rattle.std.specs.Prelude.{◌≡◌};
ghost use Rattle.table_link.specs.Records.{link_type_ok, link_ok, link_indices_ok};

use model::{Link, LinkType};
use table_ranges::{diameter_ok, number_ok, status_ok};

#[tactic(auto, unfolding(crate::specs::Records::link_type_ok))]
fn link_type_ok(kind: LinkType) -> bool
    ensures { result ≡ link_type_ok kind }
{
    match kind {
        LinkType::Pipe { diameter } => diameter_ok(diameter),
        LinkType::Pump {
            initial_flow,
            speed,
        } => number_ok(initial_flow) & number_ok(speed),
        LinkType::Valve { diameter, setting } => diameter_ok(diameter) & number_ok(setting),
    }
}

#[tactic(auto, unfolding(crate::specs::Records::link_ok))]
pub fn link_ok(l: Link) -> bool
    ensures { result ≡ link_ok l }
{
    (l.start != l.end) & status_ok(l.initial_status) & link_type_ok(l.kind)
}

#[tactic(auto, unfolding(crate::specs::Records::link_indices_ok))]
pub fn link_indices_ok(nodes: usize, l: Link) -> bool
    ensures { result ≡ link_indices_ok nodes l }
{
    (l.start < nodes) & (l.end < nodes)
}
