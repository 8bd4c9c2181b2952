// Two free ends that are joined.
ghost use Rattle.std.specs.Prelude.{◌≤◌, length};
ghost use Rattle.in_reducer.specs.Cutting.{CanJoin, JoinsLast};

use crate::queueing::queue_made;
use crate::reducer::Reducer;
use in_cells::join_last;

impl<'a> Reducer<'a> {
    /// Joins the last two free ends: their partners then lead to each other, and the two free ends are gone. If both partners are principal ports,
    /// their agents are a new pair, which comes last. The resulting net must be sound. It is if the two come from a cut, and only interactions were
    /// done since: the caller shows that (`in_order`). It takes no memory.
    pub fn join_last(&mut self)
        requires two { 2 ≤ length self.old.free }
        requires can { CanJoin self.old }
        ensures { JoinsLast self.old self.new }
    {
        let body = &mut self.body;
        let own = body.free.len() - 2;
        join_last(
            &mut body.arena,
            body.ends.as_mut_slice(),
            own as u32,
            body.checked.symbols(),
            &mut body.tools.made,
        );
        queue_made(&mut body.tools.made, &mut body.queue);
        body.free.truncate(own);
    }
}
