// The settings of a slot that have a state, one after the other. Most slots have few, so runs of settings are looked at together.
ghost use Rattle.std.specs.Prelude.{◌≡◌, ◌+◌, ◌≤◌, ◌<◌, length, bit_or, fold};
ghost use Rattle.model.specs.Limits.{search_size};
ghost use Rattle.planner_table.specs.Table.{Skipped};

// The settings that are looked at together.
const RUN: usize = 16;

// The entries joined: 0 only where each of them is.
fn union_of(entries: &[u16]) -> u16
    ensures { result ≡ fold bit_or 0 entries.now }
{
    entries.iter().fold(0, |all, sets| all | *sets)
}

// The settings without a state from `from` on, as far as whole runs have none, in the slot that stands at `at`.
fn skip_runs(table: &[u16], at: usize, from: usize, end: usize) -> usize
    requires { (at + end ≤ length table.now) × (at + end ≤ search_size) × (from ≤ end) }
    ensures { Skipped table.now at from end result }
{
    let mut x = from;
    // A while, as it steps by whole runs and stops in the midst.
    while x + RUN <= end {
        if union_of(&table[at + x..at + x + RUN]) != 0 {
            return x;
        }
        x += RUN;
    }
    x
}

// The first setting from `from` on with a state, or `end`, in the slot that stands at `at`.
pub fn next_setting(table: &[u16], at: usize, from: usize, end: usize) -> usize
    requires { (at + end ≤ length table.now) × (at + end ≤ search_size) × (from ≤ end) }
    ensures { Skipped table.now at from end result }
{
    let x = skip_runs(table, at, from, end);
    match table[at + x..at + end].iter().position(|sets| *sets != 0) {
        Some(k) => x + k,
        None => end,
    }
}
