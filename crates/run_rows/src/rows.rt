// The rows of a table of controls, in image order.
ghost use Rattle.std.specs.Prelude.{◌≡◌, [], ◌∷◌, ◌*◌, ◌<◌};
ghost use Rattle.control.specs.Controls.{watched};
ghost use Rattle.run_tables.specs.Blocks.{block};
ghost use Rattle.run_rows.specs.Rows.{kind_of, action_of, row_at, row_from, ControlsInside, RowsInside, RowsLaid};

use control::{condition_seconds, condition_target, watched};
use model::*;

// A control in the form in which it is applied. Kinds: 0 acts never, 1 high level, 2 low level, 3 time, 4 clock. Actions: 0 none, 1 a
// status, 2 a setting. `elevation` is that of the watched tank, `flow` the initial flow of the link.
// kept: kinds and actions are numbers, as the table's words hold them and `row_at` reads them (edit `row_of_six`); an enum has to be made of each word.
#[derive(Clone, Copy)]
pub struct Row {
    pub kind: u32,
    pub node: u32,
    pub link: u32,
    pub seconds: u32,
    pub action: u32,
    pub status: u32,
    pub elevation: f64,
    pub target: f64,
    pub setting: f64,
    pub flow: f64,
}

// Six words and four numbers each.
// kept: rows in two arrays, as `row_at` (edit `row_of_six`) and the theorem `apply_controls_is` have them.
#[repr(C)]
#[derive(Clone, Copy)]
pub struct ControlTable {
    pub count: usize,
    pub words: [u32; 384],
    pub numbers: [f64; 256],
    pub ghost inside: { RowsInside words count },
}

impl ControlTable {
    // Control i.
    pub fn row(&self, i: usize) -> Row
        requires { i < 64 }
        ensures { result ≡ row_at self.now.words self.now.numbers i }
    {
        row_at(&self.words, &self.numbers, i)
    }
}

// Control i of any words and numbers: six words from 6 * i on, four numbers from 4 * i on.
pub fn row_at(words: &[u32; 384], numbers: &[f64; 256], i: usize) -> Row
    requires { i < 64 }
    ensures { result ≡ row_at words.now numbers.now i }
{
    Row {
        kind: words[6 * i],
        node: words[6 * i + 1],
        link: words[6 * i + 2],
        seconds: words[6 * i + 3],
        action: words[6 * i + 4],
        status: words[6 * i + 5],
        elevation: numbers[4 * i],
        target: numbers[4 * i + 1],
        setting: numbers[4 * i + 2],
        flow: numbers[4 * i + 3],
    }
}

// Which kind of condition it is: 0 where it never acts here, a pressure or a level of no tank.
fn kind_of(is_tank: bool, condition: ControlCondition) -> u32
    ensures { result ≡ kind_of is_tank condition }
{
    match condition {
        ControlCondition::HighLevel { .. } if is_tank => 1,
        ControlCondition::LowLevel { .. } if is_tank => 2,
        ControlCondition::Time { .. } => 3,
        ControlCondition::ClockTime { .. } => 4,
        _ => 0,
    }
}

// Which action it is: a status wins over a setting.
fn action_of(status: Option<u32>, setting: Option<f64>) -> u32
    ensures { result ≡ action_of status setting }
{
    match (status, setting) {
        (Some(_), _) => 1,
        (None, Some(_)) => 2,
        (None, None) => 0,
    }
}

// A control's row, with the node that it watches and the link that it sets. Where it sets no status, or no setting, that is 0.
fn row_of(c: Control, node: Node, link: Link) -> Row
    requires condition_bound { watched c.condition < 256 }
    requires link_bound { c.link < 384 }
    ensures { result ≡ row_from c node link }
{
    Row {
        kind: kind_of(node.is_tank(), c.condition),
        node: watched(c.condition) as u32,
        link: c.link as u32,
        seconds: condition_seconds(c.condition),
        action: action_of(c.status, c.setting),
        status: c.status.unwrap_or(0),
        elevation: node.elevation(),
        target: condition_target(c.condition),
        setting: c.setting.unwrap_or(0.0),
        flow: link.initial_flow(),
    }
}

// A row's words, written in its place.
fn put_words(words: &mut [u32; 384], i: usize, r: Row)
    requires { i < 64 }
    ensures { words.new ≡ block words.old (6 * i) (r.kind ∷ r.node ∷ r.link ∷ r.seconds ∷ r.action ∷ r.status ∷ []) }
{
    words[6 * i] = r.kind;
    words[6 * i + 1] = r.node;
    words[6 * i + 2] = r.link;
    words[6 * i + 3] = r.seconds;
    words[6 * i + 4] = r.action;
    words[6 * i + 5] = r.status;
}

// And its numbers.
fn put_numbers(numbers: &mut [f64; 256], i: usize, r: Row)
    requires { i < 64 }
    ensures { numbers.new ≡ block numbers.old (4 * i) (r.elevation ∷ r.target ∷ r.setting ∷ r.flow ∷ []) }
{
    numbers[4 * i] = r.elevation;
    numbers[4 * i + 1] = r.target;
    numbers[4 * i + 2] = r.setting;
    numbers[4 * i + 3] = r.flow;
}

// The first n controls of a table, each with what it reads of the tables of nodes and of links.
pub fn control_table(
    controls: &[Control; 64],
    n: usize,
    nodes: &[Node; 256],
    links: &[Link; 384],
) -> ControlTable
    requires { ControlsInside controls.now n }
    ensures { RowsLaid controls.now n nodes.now links.now result.words result.numbers result.count }
{
    let mut words = [0; 384];
    let mut numbers = [0.0; 256];
    for i in 0..n {
        let c = controls[i];
        let r = row_of(c, nodes[watched(c.condition)], links[c.link]);
        put_words(&mut words, i, r);
        put_numbers(&mut numbers, i, r);
    }
    ControlTable {
        count: n,
        words,
        numbers,
    }
}
