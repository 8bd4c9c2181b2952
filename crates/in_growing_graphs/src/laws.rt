//! Laws on graphs that grow edge by edge, for proofs above them. No function here does anything.

ghost use Rattle.in_growing_graphs.specs.Laws.{BlobsAreLinked, BlobsAreMerged, BlobsDecideCycles, BlobsStay, GrownWalks, NoEdgeHasBlobs, TwoWaysAreCycles};

/// An edge is on a cycle exactly when its ends are joined by two ways.
pub fn two_ways_are_cycles()
    ensures { TwoWaysAreCycles }
{}

/// A walk without some edge, once another edge is added: there was one before, or one to either end of the added edge and one from the
/// other.
pub fn grown_walks()
    ensures { GrownWalks }
{}

/// An edge is on a cycle exactly when it is within a blob. So each other edge is a bridge.
pub fn blobs_decide_cycles()
    ensures { BlobsDecideCycles }
{}

/// Without edges each vertex is a blob.
pub fn no_edge_has_blobs()
    ensures { NoEdgeHasBlobs }
{}

/// An edge within a blob changes no blob.
pub fn blobs_stay()
    ensures { BlobsStay }
{}

/// An edge from the root of a tree to another tree changes no blob.
pub fn blobs_are_linked()
    ensures { BlobsAreLinked }
{}

/// An edge between two blobs of a tree makes one blob of those on the way between them.
pub fn blobs_are_merged()
    ensures { BlobsAreMerged }
{}
