// A table that is handed in, judged.
ghost use Rattle.std.specs.Prelude.{◌≡◌};
ghost use Rattle.tables.specs.Fit.{TablesFit};
ghost use Rattle.tank_links.specs.Groups.{is_laid_out};

use crate::laid::{LinkGroups, lay_out};
use model::*;

// Whether a table is the one laid out from the project's records; what lies past its places and entries is not judged.
pub fn is_laid_out(p: Project, groups: &LinkGroups) -> bool
    requires { TablesFit p }
    ensures { result ≡ is_laid_out p groups.now.begins groups.now.middles groups.now.links }
{
    let mut own = LinkGroups::empty();
    let n = lay_out(p, &mut own);
    let count = own.begins[n] as usize;
    groups.begins.starts_with(&own.begins[..n + 1])
        && groups.middles.starts_with(&own.middles[..n])
        && groups.links.starts_with(&own.links[..count])
}
