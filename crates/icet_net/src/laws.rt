//! What holds of the definitions for all values.
ghost use Rattle.icet_net.specs.NearestLeaf.{ShowsTheLeast, ShowsNoneOfNone};
ghost use Rattle.icet_net.specs.Ranks.{HullsStayHulls};

/// By depth the value of a bracket whose leaves ascend is the fragment with the least pair of depth
/// and rank among its leaves' pixels, and there is none exactly where no leaf has a fragment: however
/// such a bracket pairs its leaves, the same fragment is seen.
pub fn nearest()
    ensures some { ShowsTheLeast }
    ensures none { ShowsNoneOfNone }
{}

/// The machines of a hull that are turned, by whoever and in whatever order, are still the hull's: a net
/// may be turned by threads of its caller's own.
pub fn hulls_stay()
    ensures { HullsStayHulls }
{}
