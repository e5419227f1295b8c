// A value of a response as a signed number; absent is -1.
ghost use Rattle.std.specs.Prelude.{◌≡◌};
ghost use Rattle.capi_fields.specs.Amounts.{amount_of, flat_amount};

// A value that no response has.
const MOST: u64 = u64::MAX;

// From C: -1 is absent; any other negative number is a value that no response has.
#[tactic(auto, unfolding(crate::specs::Amounts::amount_of))]
pub fn amount_of(v: i64) -> Option<u64>
    ensures { result ≡ amount_of v }
{
    if v == -1 {
        return None;
    }
    Some(u64::try_from(v).unwrap_or(MOST))
}

// For C, as an ask shows it: -1 too where no signed number has the value.
#[tactic(auto, unfolding(crate::specs::Amounts::flat_amount))]
pub fn flat_amount(a: Option<u64>) -> i64
    ensures { result ≡ flat_amount a }
{
    a.map_or(-1, |v| i64::try_from(v).unwrap_or(-1))
}
