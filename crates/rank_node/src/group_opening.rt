//! The node of a group in the opening state. (GASPI: groups)

ghost use Rattle.std.specs.Prelude.{◌≤◌, IfOk};
ghost use Rattle.gaspi_model.specs.State.{opening_group};
ghost use Rattle.rank_node.specs.Lending.{IsGroupNode};

use crate::nodes::GroupNode;
use collective_engine::Rounds;
use gaspi_types::{GroupId, NoMemory, all_below};
use group_registry::Meeting;
use std::alloc::Global;

impl GroupNode {
    /// The node of a group in the opening state, with no contribution. The member list of group 0 has every rank; that of another
    /// group is not fixed. All memory that the node will ever need is taken here. (GASPI: groups)
    pub fn new(alloc: Global, id: GroupId, ranks: u32) -> Result<GroupNode, NoMemory>
        requires { ranks ≤ 16 }
        ensures { IfOk result (λ node. IsGroupNode (opening_group ranks id) node) }
    {
        let mut meeting = Meeting::new();
        let mut members = None;
        if id.number() == 0 {
            let _ = meeting.fix(all_below(ranks));
            members = Some(all_below(ranks));
        }
        Ok(GroupNode {
            meeting,
            rounds: Rounds::new(alloc, members)?,
        })
    }
}
