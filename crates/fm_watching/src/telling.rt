ghost use Rattle.std.specs.Prelude.{◌≡◌, map, OnErr, OnOk};
ghost use Rattle.fm_guide.specs.Watches.{with_event};
ghost use Rattle.fm_watching.specs.Told.{IsTold, MayBeTold};

use fm_base::Memory;
use fm_guide::{Event, Watch};

fn tell_one(watch: &mut Box<dyn Watch>, event: &Event) -> Result<(), Memory>
    ensures told { OnOk result (seen watch.new ≡ with_event event.now (seen watch.old)) }
    ensures err { OnErr result (seen watch.new ≡ seen watch.old) }
{
    watch.tell(event)
}

fn tell_each(watches: &mut [Box<dyn Watch>], event: &Event) -> Result<(), Memory>
    ensures told { OnOk result (IsTold event.now (map (λ w. seen w) watches.old) (map (λ w. seen w) watches.new)) }
    ensures err { OnErr result (MayBeTold event.now (map (λ w. seen w) watches.old) (map (λ w. seen w) watches.new)) }
{
    for watch in watches.iter_mut() {
        match tell_one(watch, event) {
            Ok(()) => {}
            Err(error) => return Err(error),
        }
    }
    Ok(())
}

/// Tells all watches an event, one after the other. After want of memory some have been told, and the others have seen
/// what they had.
pub fn tell(watches: &mut Vec<Box<dyn Watch>>, event: &Event) -> Result<(), Memory>
    ensures told { OnOk result (IsTold event.now (map (λ w. seen w) watches.old.items) (map (λ w. seen w) watches.new.items)) }
    ensures err { OnErr result (MayBeTold event.now (map (λ w. seen w) watches.old.items) (map (λ w. seen w) watches.new.items)) }
{
    tell_each(watches.as_mut_slice(), event)
}
