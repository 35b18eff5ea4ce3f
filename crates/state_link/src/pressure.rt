// A control's turn in the pressure pass.
ghost use Rattle.std.specs.Prelude.{◌≡◌};
ghost use Rattle.state_link.specs.Pressure.{is_pressure, presses, press};

use control::{Activated, activate, is_active};
use model::*;

fn is_pressure(condition: ControlCondition) -> bool
    ensures { result ≡ is_pressure condition }
{
    matches!(
        condition,
        ControlCondition::HighPressure { .. } | ControlCondition::LowPressure { .. }
    )
}

// Whether a control is activated: nothing has changed before it in this pass, and it is a pressure control that is active.
#[tactic(auto, unfolding(crate::specs::Pressure::presses))]
fn presses(changed: bool, condition: ControlCondition, node: Node, state: NodeState) -> bool
    ensures { result ≡ presses changed condition node state }
{
    !changed & (is_pressure(condition) & is_active(condition, node, state, 0, 0))
}

// A control's turn on its link: `changed` says whether an earlier one has changed something, and in the answer whether one has by now.
#[tactic(auto, unfolding(crate::specs::Pressure::press))]
pub fn press(
    changed: bool,
    c: Control,
    node: Node,
    node_state: NodeState,
    link: Link,
    x: LinkState,
) -> Activated
    ensures { result ≡ press changed c node node_state link x }
{
    if presses(changed, c.condition, node, node_state) {
        return activate(c, link, x);
    }
    Activated { state: x, changed }
}
