ghost use Rattle.std.specs.Prelude.{◌≡◌, ◌-◌, ◌^◌, min, nat_lt};
ghost use Rattle.sc_types.specs.declared.limits.TheConstants.{POST_WEIGHT_LIMIT};
ghost use Rattle.sc_machine.specs.Commands.{pair_weight, weight_of};

use sc_base::PlainName;
use sc_types::{POST_WEIGHT_LIMIT, PairList, Value};

/// Whether the pairs of a post weigh more than they may.
pub(crate) fn is_too_heavy(pairs: &PairList) -> bool
    ensures { result ≡ nat_lt POST_WEIGHT_LIMIT (weight_of pairs.now) }
{
    weight_of(pairs.slice()) > POST_WEIGHT_LIMIT
}

/// What pairs weigh; the last number of 64 bits stands for all that are larger.
fn weight_of(pairs: &[(PlainName, Value)]) -> u64
    ensures { result ≡ min (weight_of pairs.now) (2 ^ 64 - 1) }
{
    let mut total = 0u64;
    for pair in pairs {
        total = total.saturating_add(pair_weight(pair));
    }
    total
}

fn pair_weight(pair: &(PlainName, Value)) -> u64
    ensures { result ≡ min (pair_weight pair.now) (2 ^ 64 - 1) }
{
    (pair.0.bytes().len() as u64)
        .saturating_add(4)
        .saturating_add(pair.1.weight())
}
