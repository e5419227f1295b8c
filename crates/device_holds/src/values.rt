// What holds at a second: the table of links, and the control state.
ghost use Rattle.std.specs.Prelude.{◌≡◌};
ghost use Rattle.device_holds.specs.Holds.{situation_of, with_zone, values_at};
ghost use Rattle.device_holds.specs.Dues.{view_at};

use crate::View;
use crate::links::{link_row, link_row_with};
use device_claims::{
    LeadingSetpoints, LowestValues, leading_setpoints_at, leading_setpoints_with, lowest_values_at,
    lowest_values_with,
};
use device_store::{END, State, VALUES, Zone, settings_at, since};
use device_table::{failsafe_end, values_down, values_none, values_up};

// What holds at t.
pub fn values_at(d: &State, t: u64) -> [i64; VALUES]
    ensures { result ≡ values_at (situation_of d.now) t }
{
    let n = link_row(d);
    if n == 2 {
        return values_up(
            d,
            lowest_values_at(d, t, END),
            leading_setpoints_at(d, t, END),
        );
    }
    if n == 1 {
        return values_down(d, lowest_values_at(d, t, END), t);
    }
    values_none(d)
}

// What would hold at t with the given record in a slot's place; SLOTS and above are no slot.
pub fn values_with(d: &State, slot: usize, zone: Zone, t: u64) -> [i64; VALUES]
    ensures { result ≡ values_at (with_zone (situation_of d.now) slot zone) t }
{
    let n = link_row_with(d, slot, zone);
    if n == 0 {
        return values_none(d);
    }
    let a = lowest_values_with(d, slot, zone, t);
    if n == 2 {
        return values_up(d, a, leading_setpoints_with(d, slot, zone, t));
    }
    values_down(d, a, t)
}

// What holds at t, and until when it cannot change.
pub fn view_at(d: &State, t: u64) -> View
    ensures { result ≡ view_at (situation_of d.now) t }
{
    let n = link_row(d);
    if n == 2 {
        let a = lowest_values_at(d, t, END);
        let b = leading_setpoints_at(d, t, a.next);
        return View {
            values: values_up(d, a, b),
            next: b.next,
        };
    }
    if n == 1 {
        let g = lowest_values_at(d, t, failsafe_end(since(d), settings_at(d).duration, t));
        return View {
            values: values_down(d, g, t),
            next: g.next,
        };
    }
    View {
        values: values_none(d),
        next: END,
    }
}
