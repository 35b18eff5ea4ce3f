// A load judged, and taken into a run's lists: every link's flow, then every junction's head, and the tanks' net inflow.
ghost use Rattle.std.specs.Prelude.{◌≡◌, ◌+◌, ◌≤◌, ◌<◌};
ghost use Rattle.run_loads.specs.Faults.{judged_number};
ghost use Rattle.run_loads.specs.Loaded.{lists_loaded};
ghost use Rattle.run_loads.specs.Taking.{fault_of, flows_taken, JunctionsInside, heads_taken, LinksInside, inflows_summed};
ghost use Rattle.run_loads.specs.Values.{shape_ok, values_ok};

use crate::fault::LoadFault;
use crate::table::LoadTable;
use image_entry::{number, word};
use number::within;
use run_state::Lists;
use run_tables::NodeList;
use run_tanks::empty_tanks;

// Kind 15, zeros and the size in the header, and as many words behind it.
fn shape_ok(count: usize, words: &[u32]) -> bool
    requires { count < 100000 }
    ensures { result ≡ shape_ok count words.now }
{
    let size = 2 * count;
    let header = word(words, 0) as usize;
    (words.len() == 1 + size) & (header == 4026531840 + size)
}

// Each within 10^12.
fn values_ok(count: usize, words: &[u32]) -> bool
    requires { count < 100000 }
    ensures { result ≡ values_ok count words.now }
{
    (0..count).all(|k| within(1000000000000.0, number(words, 1 + 2 * k)))
}

// Whether some words are a load that should have so many numbers.
pub fn load_fault(count: usize, words: &[u32]) -> Result<(), LoadFault>
    requires { count < 100000 }
    ensures { judged_number result ≡ fault_of count words.now }
{
    if !shape_ok(count, words) {
        return Err(LoadFault::Shape);
    }
    if !values_ok(count, words) {
        return Err(LoadFault::Value);
    }
    Ok(())
}

// Every link's flow.
pub fn take_flows(words: &[u32], n: usize, flows: &mut [f64; 384])
    requires { n ≤ 384 }
    ensures { flows.new ≡ flows_taken words.now n flows.old }
{
    for i in 0..n {
        flows[i] = number(words, 1 + 2 * i);
    }
}

// Then every junction's head: so many numbers stand before the first.
pub fn take_heads(
    words: &[u32],
    junctions: &[u32; 256],
    from: usize,
    n: usize,
    heads: &mut [f64; 256],
)
    requires { JunctionsInside junctions.now from n }
    ensures { heads.new ≡ heads_taken words.now junctions.now from n heads.old }
{
    for r in 0..n {
        heads[junctions[r] as usize] = number(words, 1 + 2 * (from + r));
    }
}

// In link order, each link's flow into the tank at its end and out of the one at its start. A node that is no tank has the mark 0.
pub fn sum_inflows(
    starts: &[u32; 384],
    ends: &[u32; 384],
    tanks: &[u32; 256],
    flows: &[f64; 384],
    n: usize,
    demands: &mut [f64; 256],
)
    requires { LinksInside starts.now ends.now n }
    ensures { demands.new ≡ inflows_summed starts.now ends.now tanks.now flows.now n demands.old }
{
    for k in 0..n {
        let e = ends[k] as usize;
        let b = starts[k] as usize;
        if tanks[e] != 0 {
            demands[e] += flows[k];
        }
        if tanks[b] != 0 {
            demands[b] -= flows[k];
        }
    }
}

impl LoadTable {
    // Whether some words are a load.
    pub fn judge(&self, words: &[u32]) -> Result<(), LoadFault>
        ensures { judged_number result ≡ fault_of (self.now.links + self.now.junctions.count) words.now }
    {
        load_fault(self.count(), words)
    }

    // Takes a load that has no fault: its flows and heads, and each tank's net inflow.
    pub fn take(&self, words: &[u32], tanks: &NodeList, lists: &mut Lists)
        ensures { lists.new ≡ lists_loaded words.now self.now tanks.now lists.old }
    {
        take_flows(words, self.links, &mut lists.links.flows);
        take_heads(
            words,
            &self.junctions.nodes,
            self.links,
            self.junctions.count,
            &mut lists.heads,
        );
        empty_tanks(tanks, &mut lists.demands);
        sum_inflows(
            &self.starts,
            &self.ends,
            &self.tanks,
            &lists.links.flows,
            self.links,
            &mut lists.demands,
        );
    }
}
