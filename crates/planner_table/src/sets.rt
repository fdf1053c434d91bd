// Sets of sets of targets: a set of targets is a number below 16, and a word has a bit for each of them.
ghost use Rattle.std.specs.Prelude.{◌≡◌, ◌&&◌, ℕ, ◌^◌, ◌<◌};
ghost use Rattle.std.specs.Int.Bits.{bit_or};
ghost use Rattle.network_words.specs.Words.{word_bit};
ghost use Rattle.planner_table.specs.Sets.{Joined};

// The sets of targets: 2 to the power of 4.
const TARGET_SETS: usize = 16;

// Whether m is in sets.
pub fn has(sets: u16, m: usize) -> bool
    requires { m < 16 }
    ensures { result ≡ word_bit sets m }
{
    (sets >> m) & 1 == 1
}

// m alone.
pub fn only(m: usize) -> u16
    requires { m < 16 }
    ensures { result ≡ 2 ^ m }
{
    1 << m
}

// Each of sets together with g, which mostly has no target.
pub fn joined(sets: u16, g: usize) -> u16
    requires { g < 16 }
    ensures { Joined sets g result }
{
    if g == 0 {
        return sets;
    }
    let mut r = 0;
    for m in 0..TARGET_SETS {
        if has(sets, m) {
            r |= only(m | g);
        }
    }
    r
}

// Those of sets that together with g are in all.
pub fn kept(sets: u16, g: usize, all: u16) -> u16
    requires { g < 16 }
    ensures { (m : ℕ) → m < 16 → word_bit result m ≡ (word_bit sets m && word_bit all (bit_or m g)) }
{
    if g == 0 {
        return sets & all;
    }
    let mut r = 0;
    for m in 0..TARGET_SETS {
        if has(sets, m) && has(all, m | g) {
            r |= only(m);
        }
    }
    r
}
