// The layout of the words, stored: one whole change at a time.
ghost use Rattle.std.specs.Prelude.{◌≡◌, ◌+◌, ◌*◌, ◌<◌, set};
ghost use Rattle.std.proofs.lemmas.List.Edits.{sets};
ghost use Rattle.device_store.specs.Sizes.{marks, words};
ghost use Rattle.device_store.specs.Words.{held_words, put_zone, applied, head_change, setting_words, fresh};

use crate::lenses::all;
use crate::quantities::HELDS;
use crate::{Change, HEAD, Held, MARKS, SETTINGS, SLOTS, Settings, State, WORDS, ZONE, Zone};

// By hand: of what `d.get_mut(i)` lends, a proof knows the length alone afterwards.
fn put_word(d: &mut State, i: usize, v: u64)
    ensures { d.new ≡ set d.old i v }
{
    if i < WORDS {
        d[i] = v;
        return;
    }
    let _a = all(d);
}

fn put_held(d: &mut State, at: usize, h: Held)
    requires { at < 2 * words }
    ensures { d.new ≡ set (set d.old at h.value) (at + 1) h.until }
{
    put_word(d, at, h.value);
    put_word(d, at + 1, h.until);
}

fn put_helds(d: &mut State, p: usize, hs: [Held; HELDS])
    requires { p < words }
    ensures { d.new ≡ sets d.old p (held_words hs) }
{
    for (q, h) in hs.iter().enumerate() {
        put_held(d, p + 2 * q, *h);
    }
}

fn put_zone(d: &mut State, slot: usize, zone: Zone)
    ensures { d.new ≡ put_zone d.old slot zone }
{
    if slot < SLOTS {
        let at = HEAD + slot * ZONE;
        put_word(d, at, zone.precedence);
        put_word(d, at + 1, u64::from(zone.up));
        put_helds(d, at + 2, zone.held);
    }
}

// The one way to change a zone.
pub fn apply(d: &mut State, c: Change)
    ensures { d.new ≡ applied d.old c }
{
    put_zone(d, c.slot, c.zone);
    put_word(d, 1, c.since);
    put_word(d, 2, c.overridden);
    put_word(d, 0, c.time);
}

// A change of the clock and the override alone.
pub fn apply_head(d: &mut State, t: u64, o: u64)
    ensures { d.new ≡ applied d.old (head_change d.old t o) }
{
    put_word(d, 2, o);
    put_word(d, 0, t);
}

fn put_settings(d: &mut State, vs: [u64; SETTINGS])
    ensures { d.new ≡ sets d.old marks vs }
{
    for (i, v) in vs.iter().enumerate() {
        put_word(d, MARKS + i, *v);
    }
}

fn setting_words(s: Settings) -> [u64; SETTINGS]
    ensures { result ≡ setting_words s }
{
    [
        s.directions,
        u64::from(s.limits),
        u64::from(s.setpoints),
        s.minimum,
        s.maxima[0],
        s.maxima[1],
        s.failsafe[0],
        s.failsafe[1],
        s.duration,
        u64::from(s.manager),
        s.phases,
        u64::from(s.currents),
    ]
}

// A device with these settings and no zone, whatever stood there.
pub fn fresh(d: &mut State, s: Settings)
    ensures { d.new ≡ fresh s }
{
    *d = [0; WORDS];
    put_settings(d, setting_words(s));
}
