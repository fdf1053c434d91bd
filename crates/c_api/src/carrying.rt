// A setting carried into the next exercise, under a C name.
ghost use Rattle.std.specs.Prelude.{◌≡◌};
ghost use Rattle.carry_model.specs.Carry.{carry_text};
ghost use Rattle.c_api.specs.Numbers.{count_numbers};

use crate::numbers::count_numbers;
use carrier::carry;

// Writes the `hold` lines of the configuration that a passed plan left to the front of holds. answer takes 0 and the count of
// bytes, or a refusal's number and place.
#[unsafe(no_mangle)]
pub extern "C" fn penthluk_carry(
    network: &[u8],
    plan: &[u8],
    holds: &mut [u8],
    answer: &mut [usize; 2],
)
    ensures answer_after { answer.new ≡ count_numbers (carry_text network.now plan.now holds.old).result }
    ensures holds_after { holds.new ≡ (carry_text network.now plan.now holds.old).holds }
{
    *answer = count_numbers(carry(network, plan, holds));
}
