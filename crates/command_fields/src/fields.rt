// What a field says: a signed number or none, and whether it names its quantity.
ghost use Rattle.std.specs.Prelude.{◌≡◌};
ghost use Rattle.command_fields.specs.Fields.{negative, natural, field_names, field_negative, too_low, field_too_low, field_above};

use wire_messages::Field;

// No value is below 0.
pub fn is_negative(v: i64) -> bool
    ensures { result ≡ negative v }
{
    v < 0
}

// A number as it is stored; what is below 0 is refused before.
pub fn natural_of(v: i64) -> u64
    ensures { result ≡ natural v }
{
    u64::try_from(v).unwrap_or(0)
}

// Null names its quantity too.
pub fn field_names(f: Field) -> bool
    ensures { result ≡ field_names f }
{
    !matches!(f, Field::Absent)
}

// A field with a number that no value can be.
pub fn field_negative(f: Field) -> bool
    ensures { result ≡ field_negative f }
{
    matches!(f, Field::Value(v) if v < 0)
}

// The rule for a single value: 0 means off.
#[tactic(auto, unfolding(crate::specs::Fields::too_low))]
fn is_too_low(minimum: u64, v: u64) -> bool
    ensures { result ≡ too_low minimum v }
{
    0 < v && v < minimum
}

// A field with a number below the minimum.
pub fn field_too_low(minimum: u64, f: Field) -> bool
    ensures { result ≡ field_too_low minimum f }
{
    matches!(f, Field::Value(v) if is_too_low(minimum, natural_of(v)))
}

// A field with a number that will be capped.
pub fn field_above(top: u64, f: Field) -> bool
    ensures { result ≡ field_above top f }
{
    matches!(f, Field::Value(v) if top < natural_of(v))
}
