// The link that an index names, fixed or stop, from its slot. Who holds the slots reads it.
ghost use Rattle.std.specs.Prelude.{◌≡◌};
ghost use Rattle.links.specs.Index.{named_from};

use crate::{Interface, LinkIndex, Named, Slot};
use area::Area;

// Its interface and its area. The topological link has no area, the dynamic link perhaps one.
pub fn link_from(
    tvl: Interface,
    dgvl: Interface,
    area: Option<Area>,
    index: LinkIndex,
    slot: Slot,
) -> Named
    ensures { result ≡ named_from tvl dgvl area index slot }
{
    if index == LinkIndex::TVL {
        return Named {
            enabled: true,
            interface: tvl,
            area: None,
        };
    }
    if index == LinkIndex::DGVL {
        return Named {
            enabled: true,
            interface: dgvl,
            area,
        };
    }
    Named {
        enabled: slot.enabled,
        interface: slot.settings.interface,
        area: Some(slot.settings.area),
    }
}
