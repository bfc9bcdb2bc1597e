//! Sources that have no sites, as a quick look shows.
ghost use Rattle.std.specs.Prelude.{IsTrue};
ghost use Rattle.rl_sites.specs.Sites.{HasNoSites};

use rl_pylex::lacks_name;

/// Whether a quick search shows that the source can be cut into tokens and has no sites, because none of its tokens is the
/// name `re`. If the result is false, the source may or may not have sites.
#[tactic(auto, using(crate::proofs::NoName::without_name))]
pub fn has_no_sites(source: &[u8]) -> bool
    ensures { IsTrue result → HasNoSites source.now }
{
    lacks_name(source, b"re")
}
