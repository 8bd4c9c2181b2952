//! Parts of an open net.
ghost use Rattle.std.specs.Prelude.{◌≡◌, length};

use crate::nodes::NodeSet;
use crate::wired::Wired;

/// The sub-net of some nodes of an open net.
#[derive(Clone, Copy, Drop)]
pub struct Part<'a> {
    pub wired: &'a Wired<'a>,
    pub nodes: &'a NodeSet,
    ghost size: { length nodes.now ≡ length wired.now.nodes },
}
