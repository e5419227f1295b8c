// What stands for one number in an answer.
ghost use Rattle.std.specs.Prelude.{◌≡◌};
ghost use Rattle.command_fields.specs.Fields.{reason_of, stated};

use refusals::{
    BAD_VALUE, BELOW_MINIMUM, NOT_SUPPORTED, OVERRIDDEN, REASON_ABOVE_CONTRACTUAL,
    REASON_BELOW_MINIMUM, REASON_INVALID, REASON_NOT_SUPPORTED, REASON_OVERRIDE,
};

// Why a SetLimit was refused, or that it was capped.
#[tactic(auto, unfolding(crate::specs::Fields::reason_of))]
pub fn reason_of(n: u64, capped: bool) -> Option<u64>
    ensures { result ≡ reason_of n capped }
{
    match n {
        NOT_SUPPORTED => Some(REASON_NOT_SUPPORTED),
        OVERRIDDEN => Some(REASON_OVERRIDE),
        BAD_VALUE => Some(REASON_INVALID),
        BELOW_MINIMUM => Some(REASON_BELOW_MINIMUM),
        0 if capped => Some(REASON_ABOVE_CONTRACTUAL),
        _ => None,
    }
}

pub fn stated(v: i64) -> Option<u64>
    ensures { result ≡ stated v }
{
    u64::try_from(v).ok()
}
