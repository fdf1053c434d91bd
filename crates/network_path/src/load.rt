// The load of a CSU operation: every segment on the path gets its scan-in bits.
ghost use Rattle.network_path.specs.Answers.{Loadable, Loads};

use crate::layout::{Nodes, Way, Words, segment_len};
use network_words::{ALL_KNOWN, loaded};

// Each of the n segments that way holds is loaded with its part of the scan-in bits.
pub fn load<'a>(
    nodes: &'a Nodes,
    way: &'a Way,
    n: usize,
    scan: &'a [u8],
    bits: &mut Words,
    known: &mut Words,
)
    requires { Loadable nodes.now way.now n scan.now bits.old known.old }
    ensures { Loads nodes.now way.now n scan.now bits.old known.old bits.new known.new }
{
    let mut p: usize = 0;
    for &k in &way[..n] {
        let k = usize::from(k);
        let len = segment_len(nodes, k);
        let q = p + len;
        bits[k] = loaded(&scan[p..q], len);
        known[k] = ALL_KNOWN;
        p = q;
    }
}
