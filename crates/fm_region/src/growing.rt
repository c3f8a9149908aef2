ghost use Rattle.std.specs.Prelude.{◌≡◌, ◌==◌, ◌<◌, ◌≤◌, ℕ, length, OnOk};
ghost use Rattle.std.specs.List.{list_any};
ghost use Rattle.fm_region.specs.Parts.{AreDegrees, AreKept, IsTable, regions_of};
ghost use Rattle.fm_bank.specs.Regions.{Cover, grown, grown_within, is_large, must_grow};
ghost use Rattle.fm_region.specs.Rows.{apart_in};

use crate::closing::close;
use crate::parts::{Part, merge};
use fm_base::Memory;
use sqlite_items::Items;
use std::alloc::Global;

fn has_large(k: usize, parts: &[Part]) -> bool
    ensures { result ≡ list_any (λ r. is_large k r) (regions_of parts.now) }
{
    for part in parts {
        if k < part.classes.len() {
            return true;
        }
    }
    false
}

fn grows(classes: &[usize], k: usize, parts: &[Part]) -> bool
    ensures { result ≡ must_grow classes.now k (regions_of parts.now) }
{
    k < classes.len() && !has_large(k, parts)
}

// While the sort has more than k classes and no region has, joins the first two regions and closes again.
pub(crate) fn grow(
    alloc: Global,
    near: &[Items<bool>],
    classes: &[usize],
    degrees: &[usize],
    k: usize,
    parts: &mut Items<Part>,
) -> Result<(), Memory>
    requires table { IsTable (apart_in near.now) classes.now }
    requires degrees { AreDegrees (apart_in near.now) classes.now degrees.now }
    requires kept { AreKept (apart_in near.now) classes.now parts.old }
    requires cover { Cover (regions_of parts.old) classes.now }
    ensures grown { OnOk result (regions_of parts.new ≡ grown (apart_in near.now) classes.now k (regions_of parts.old)) }
{
    for _round in 0..parts.len() {
        if !grows(classes, k, parts.as_slice()) {
            return Ok(());
        }
        merge(alloc, near, classes, parts, 0, 1)?;
        close(alloc, near, classes, degrees, k, parts)?;
    }
    Ok(())
}
