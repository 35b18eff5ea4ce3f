// The calls: the tables judged first, then whether the stops can be foreseen.
ghost use Rattle.std.specs.Prelude.{◌≡◌, length};
ghost use Rattle.tables.specs.Fit.{TablesFit};
ghost use Rattle.stops_ahead.specs.Ahead.{first_in};
ghost use Rattle.stops_ahead.specs.Foreseen.{frequent, stops_foreseen, next_stop, next_stops, stops_given, stops_written, stop_number, stop_counts, stop_instants, stops_number, stops_counts, number_of_stops, counts_of_stops};

use crate::ahead::fill;
use clock::Times;
use model::*;
use simulation::{no_tanks, times_of};
use tables::tables_ok;

// The seconds of a day.
// kept: `clock` has it as the u64 of its candidates; a conversion at each use is no plainer.
const DAY: u32 = 86400;

// Why no stops are answered. Unforeseen: the works is not one whose stops are known beforehand. Refused: the number.
#[derive(Clone, Copy)]
pub enum NoStops {
    Unforeseen,
    Refused(u32),
}

// Whether the timesteps let the stops be foreseen.
fn frequent(o: Times) -> bool
    ensures { result ≡ frequent o }
{
    ((o.report <= o.hydraulic) | (o.pattern <= o.hydraulic))
        & ((o.report <= DAY) | (o.pattern <= DAY))
}

// Whether the works is one whose stops are known beforehand.
fn stops_foreseen(p: Project) -> bool
    requires { TablesFit p }
    ensures { result ≡ stops_foreseen p }
{
    let o = times_of(p);
    no_tanks(p) & (!o.fast & frequent(o))
}

// Writes the stops after an instant to the start of a list, rising, as many as there are and it has room for. Entries behind them stay, and where
// no number of stops is answered all do.
pub fn next_stops(p: Project, instant: u32, out: &mut [u32]) -> Result<usize, NoStops>
    ensures value { result ≡ next_stops p instant (length out.old) }
    ensures result_value { (stops_number result ≡ number_of_stops p) × (stops_counts result ≡ counts_of_stops p instant (length out.old)) }
    ensures out_after { out.new ≡ stops_written p instant out.old }
{
    if !tables_ok(p) {
        return Err(NoStops::Refused(10));
    }
    if !stops_foreseen(p) {
        return Err(NoStops::Unforeseen);
    }
    Ok(fill(times_of(p), &p.controls, p.counts.controls, instant, out))
}

// The first of the stops, of an answer for a list of one.
fn first_of(answer: Result<usize, NoStops>, instant: u32) -> Result<Option<u32>, NoStops>
    ensures { result ≡ first_in answer instant }
{
    let n = answer?;
    if n == 0 {
        return Ok(None);
    }
    Ok(Some(instant))
}

// The next stop after an instant; none is left at the duration.
pub fn next_stop(p: Project, instant: u32) -> Result<Option<u32>, NoStops>
    ensures value { result ≡ next_stop p instant }
    ensures result_value { (stop_number result ≡ number_of_stops p) × (stop_counts result ≡ counts_of_stops p instant 1) × (stop_instants result ≡ stops_given p instant 1) }
{
    let mut one = [0u32; 1];
    let answer = next_stops(p, instant, &mut one);
    first_of(answer, one[0])
}
