ghost use Rattle.in_open_nets.specs.Stuck.{IsStuckAt, IsStuckNet};

use crate::derivations::Stuck;
use crate::open_nets::OpenNet;
use in_syntax::Place;

impl Stuck {
    /// The place of the first node of the stuck sub-net in the text: its program is refused there. That it is the first node is
    /// this project's own choice.
    pub fn place(&self, open: &OpenNet) -> Place
        requires { IsStuckNet «open».now self.now }
        ensures { IsStuckAt «open».now result }
    {
        let nodes = open.nodes.as_slice();
        let first = self.nodes.as_slice()[0];
        nodes[first as usize].place
    }
}
