// The place of a segment on a path.
ghost use Rattle.std.specs.Prelude.{◌≡◌, take};
ghost use Rattle.model.specs.Path.{place};
ghost use Rattle.network_path.specs.Layout.{scan_path};
ghost use Rattle.network_path.specs.Answers.{HoldsPath};

use crate::layout::{Nodes, Way, segment_len};

// The place of bit 0 of segment s on the path whose n segments way holds, if s is on it.
pub fn place_of<'a>(nodes: &'a Nodes, way: &'a Way, n: usize, s: usize) -> Option<usize>
    requires { HoldsPath nodes.now way.now n }
    ensures { result ≡ place (scan_path nodes.now (take n way.now)) s }
{
    let mut p: usize = 0;
    for &k in &way[..n] {
        let k = usize::from(k);
        if k == s {
            return Some(p);
        }
        p += segment_len(nodes, k);
    }
    None
}
