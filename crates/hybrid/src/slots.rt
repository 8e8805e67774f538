// Slots 0 to 4,096, of which the last free one up to a number is found and taken. In a free slot stands its own number, in a taken one
// that of a lower slot with none free between them; a search shortens the way that it goes, so that no later one goes all of it again.
ghost use Rattle.std.specs.Prelude.{◌<◌};
ghost use Rattle.hybrid.specs.Private.Simes.{Slots, Searched, Taken};

// The last free slot up to a number.
fn last_free(slots: &mut [u16; 4097], last: u16) -> u16
    requires slots { Slots slots.old }
    requires last_bound { last < 4097 }
    ensures { Searched slots.old last slots.new result }
{
    let mut slot = last;
    let mut below = slots[slot as usize];
    while below != slot {
        let further = slots[below as usize];
        slots[slot as usize] = further;
        slot = further;
        below = slots[slot as usize];
    }
    slot
}

// Takes the last free slot up to a number: false if only slot 0, which is never taken, is free there.
pub(crate) fn take_slot(slots: &mut [u16; 4097], last: u16) -> bool
    requires slots { Slots slots.old }
    requires last_bound { last < 4097 }
    ensures { Taken slots.old last slots.new result }
{
    let slot = last_free(slots, last);
    if slot == 0 {
        return false;
    }
    slots[slot as usize] = slot - 1;
    true
}
