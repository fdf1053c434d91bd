// The calls under C names, for programs in other languages. A slice is passed as a pointer and a count, an array as a pointer.
#![tactic(auto)]

pub mod carrying;
mod numbers;
pub mod recovery;

ghost use Rattle.std.specs.Prelude.{◌≡◌};
ghost use Rattle.model.specs.Calls.{write_clocks, make_plan};
ghost use Rattle.model.specs.Mark.{mark as mark_of_texts};
ghost use Rattle.model.specs.NetworkText.{read_network};
ghost use Rattle.c_api.specs.Numbers.{read_numbers, mark_numbers, count_numbers};

use crate::numbers::{count_numbers, refusal_numbers};
use clock_writer::write_clocks;
use marker::mark;
use network_reader::reader::read_network;
use planner::make_plan;

// Reads a network text. answer takes 0 and the counts of nodes, segment bits, distinct steering bits and bits of the start's
// path; or a refusal's number and place, and three zeros.
#[unsafe(no_mangle)]
pub extern "C" fn penthluk_read(text: &[u8], answer: &mut [usize; 5])
    ensures { answer.new ≡ read_numbers (read_network text.now) }
{
    *answer = match read_network(text) {
        Ok(network) => [
            0,
            network.summary.count,
            network.summary.total,
            network.steering_count,
            network.start_length,
        ],
        Err(refusal) => refusal_numbers::<5>(refusal),
    };
}

// Marks a plan text against a network text. answer takes 0, the counts of operations, of clocks and of `got` rows, and the rows,
// each as target, operation and place; or a refusal's number and place. Zeros stand behind.
#[unsafe(no_mangle)]
pub extern "C" fn penthluk_mark(network: &[u8], plan: &[u8], answer: &mut [usize; 16])
    ensures { answer.new ≡ mark_numbers (mark_of_texts network.now plan.now) }
{
    *answer = match mark(network, plan) {
        Ok(pass) => {
            let rows = pass.gots.rows;
            [
                0,
                pass.operations,
                pass.clocks,
                pass.gots.count,
                rows[0].target,
                rows[0].operation,
                rows[0].place,
                rows[1].target,
                rows[1].operation,
                rows[1].place,
                rows[2].target,
                rows[2].operation,
                rows[2].place,
                rows[3].target,
                rows[3].operation,
                rows[3].place,
            ]
        }
        Err(refusal) => refusal_numbers::<16>(refusal),
    };
}

// Writes the clocks of a plan text to the buffers. answer takes 0 and the count of clocks, or a refusal's number and place.
#[unsafe(no_mangle)]
pub extern "C" fn penthluk_clocks(
    plan: &[u8],
    tms: &mut [u8],
    tdi: &mut [u8],
    answer: &mut [usize; 2],
)
    ensures answer_after { answer.new ≡ count_numbers (write_clocks plan.now tms.old tdi.old).result }
    ensures tms_after { tms.new ≡ (write_clocks plan.now tms.old tdi.old).tms }
    ensures tdi_after { tdi.new ≡ (write_clocks plan.now tms.old tdi.old).tdi }
{
    *answer = count_numbers(write_clocks(plan, tms, tdi));
}

// Writes the plan of a network text to the front of plan. answer takes 0 and the count of bytes, or a refusal's number and place.
#[unsafe(no_mangle)]
pub extern "C" fn penthluk_plan(
    network: &[u8],
    search: &mut [u16],
    plan: &mut [u8],
    answer: &mut [usize; 2],
)
    ensures answer_after { answer.new ≡ count_numbers (make_plan network.now search.old plan.old).result }
    ensures search_after { search.new ≡ (make_plan network.now search.old plan.old).search }
    ensures plan_after { plan.new ≡ (make_plan network.now search.old plan.old).plan }
{
    *answer = count_numbers(make_plan(network, search, plan));
}
