// The passes that the patterns of an instant make.
ghost use Rattle.std.specs.Prelude.{◌≡◌, ◌≤◌, ◌<◌, take, drop, get_or};
ghost use Rattle.pattern_view.specs.View.{multiplier_in_force};
ghost use Rattle.run_patterns.specs.Filling.{multipliers_filled, demand_sum, demands_filled, heads_filled, demands_copied};

use pattern_view::multiplier_in_force;
use run_sources::{DemandTable, HeadTable};

// The multiplier in force of the pattern whose multipliers begin at a place, by a view of them; none stand past the table's end.
fn pattern_multiplier(
    multipliers: &[f64; 5376],
    from: usize,
    length: u32,
    start: u32,
    timestep: u32,
    time: u32,
) -> f64
    requires { from ≤ 5376 }
    ensures { result ≡ multiplier_in_force (take length (drop from multipliers.now)) start timestep time }
{
    let to = (from + length as usize).min(5376);
    multiplier_in_force(&multipliers[from..to], start, timestep, time)
}

// The multiplier of each pattern at an instant, and 1 at 32 for none.
pub fn fill_multipliers(
    lengths: &[u32; 32],
    multipliers: &[f64; 5376],
    start: u32,
    timestep: u32,
    time: u32,
    table: &mut [f64; 33],
)
    ensures { table.new ≡ multipliers_filled lengths.now multipliers.now start timestep time table.old }
{
    for k in 0..32 {
        let length = lengths[k];
        table[k] = pattern_multiplier(multipliers, k * 168, length, start, timestep, time);
    }
    table[32] = 1.0;
}

// The demands of node i, added to 0 in order: base times multiplier times the demand multiplier.
fn demand_sum(t: &DemandTable, table: &[f64; 33], scale: f64, i: usize) -> f64
    requires { i < t.now.count }
    ensures { result ≡ demand_sum t.now.bases t.now.patterns table.now scale i (get_or t.now.counts i 0) }
{
    let mut sum = 0.0;
    for j in 0..t.counts[i] as usize {
        let at = 4 * i + j;
        let k = t.patterns[at] as usize;
        sum += t.bases[at] * table[k] * scale;
    }
    sum
}

// Every node's demand.
pub fn fill_demands(t: &DemandTable, table: &[f64; 33], scale: f64, demands: &mut [f64; 256])
    ensures { demands.new ≡ demands_filled t.now.counts t.now.bases t.now.patterns table.now scale t.now.count demands.old }
{
    for i in 0..t.count {
        demands[i] = demand_sum(t, table, scale, i);
    }
}

// The head of every reservoir with a pattern.
pub fn fill_heads(t: &HeadTable, table: &[f64; 33], heads: &mut [f64; 256])
    ensures { heads.new ≡ heads_filled t.now.at.nodes t.now.elevations t.now.patterns table.now t.now.at.count heads.old }
{
    for r in 0..t.at.count {
        let i = t.at.nodes[r] as usize;
        let k = t.patterns[r] as usize;
        heads[i] = t.elevations[r] * table[k];
    }
}

// "Under PDA the pattern's demands are copied to the demand flows."
pub fn copy_demands(demands: &[f64; 256], n: usize, demand_flows: &mut [f64; 256])
    requires { n ≤ 256 }
    ensures { demand_flows.new ≡ demands_copied demands.now n demand_flows.old }
{
    demand_flows[..n].copy_from_slice(&demands[..n]);
}
