// A link at the start.
ghost use Rattle.std.specs.Prelude.{◌≡◌};
ghost use Rattle.state_link.specs.Start.{start_link};

use model::*;

pub fn start_link(l: Link) -> LinkState
    ensures { result ≡ start_link l }
{
    LinkState {
        flow: l.initial_flow(),
        status: l.initial_status,
        setting: l.initial_setting(),
    }
}
