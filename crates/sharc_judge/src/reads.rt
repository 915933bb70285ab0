// The reads of each granule under mode dynamic since it was last written or taken under it.

ghost use Rattle.std.specs.Prelude.{◌≡◌, [], ◌∷◌, ◌++◌, OnOk, if◌then◌else◌};
ghost use Rattle.sharc_judge.specs.{Reads.{reads_in, same_granule, with_read}, declared.keys.GranuleKey.GranuleKey};

use crate::access::access_by;
use crate::keys::{GranuleKey, granule_key};
use crate::table::Noted;
use sharc_tree::event::CellMode;
use std::alloc::{AllocError, Global};
use std::collections::HashMap;

/// The reads of each granule.
pub(crate) type Reads = HashMap<GranuleKey, Vec<Noted>>;

// One read more of a granule.
fn add(
    alloc: Global,
    reads: &mut Reads,
    granule: GranuleKey,
    noted: Noted,
) -> Result<(), AllocError>
    ensures { OnOk result ((q : GranuleKey) → reads_in reads.new q
        ≡ (if same_granule granule q then reads_in reads.old q ++ noted ∷ [] else reads_in reads.old q)) }
{
    let mut all = match reads.remove(&granule) {
        None => Vec::new(alloc),
        Some(all) => all,
    };
    all.push(noted)?;
    reads.insert(granule, all)?;
    Ok(())
}

/// Notes the event, if it is an access under mode dynamic.
pub(crate) fn note_read(alloc: Global, reads: &mut Reads, noted: Noted) -> Result<(), AllocError>
    ensures { OnOk result ((q : GranuleKey) → reads_in reads.new q ≡ with_read q noted (reads_in reads.old q)) }
{
    match access_by(noted.event.act) {
        None => Ok(()),
        Some(a) => match a.mode {
            CellMode::Dynamic => {
                let granule = granule_key(a.cell);
                if a.is_write {
                    reads.remove(&granule);
                    Ok(())
                } else {
                    add(alloc, reads, granule, noted)
                }
            }
            _ => Ok(()),
        },
    }
}
