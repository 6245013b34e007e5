//! The record of a call that is no collective, on the posts of its caller's rank and the memory that it works on.

ghost use Rattle.std.specs.Prelude.{◌≡◌, ◌<◌, false};
ghost use Rattle.gaspi_types.specs.CallRows.{row_of};
ghost use Rattle.gaspi_types.specs.Replies.{is_idle};
ghost use Rattle.rank_node.specs.Effects.{MayAffectPosts, MayAffectMemory, IsMadeByCall, recorded_posts, recorded_memory};

use crate::node_memory::NodeMemory;
use crate::node_posts::NodePosts;
use crate::rooms::Room;
use gaspi_types::{Call, CallerId, Event, Reply};
use plain_calls::is_refused_or_timeout;

/// Makes the effect of a call with its reply, and appends its event at `place` to the rank journal. A refusal or a timeout only
/// appends the event. `room` is the memory that was reserved for the call, and is used; no other memory is taken.
pub(crate) fn record(
    posts: &mut NodePosts,
    memory: &mut NodeMemory,
    place: u64,
    caller: CallerId,
    call: Call,
    reply: Reply,
    room: &mut Room,
)
    requires row { room.old.row ≡ row_of call }
    requires event { posts.old.posts.events < posts.old.limits.events }
    requires posts { is_idle reply ≡ false → MayAffectPosts posts.old (row_of call).posting call room.old.entries }
    requires memory { is_idle reply ≡ false → MayAffectMemory memory.old call room.old.made room.old.message }
    requires made { is_idle reply ≡ false → IsMadeByCall posts.old call room.old.made }
    ensures posts { posts.new ≡ recorded_posts posts.old place caller call reply }
    ensures memory { memory.new ≡ recorded_memory posts.old room.old.message memory.old call reply }
{
    if !is_refused_or_timeout(&reply) {
        memory.affect(&call, &mut room.made, &mut room.message);
        let posting = room.row.posting;
        posts.affect(caller.thread, &call, posting, &mut room.entries);
    }
    posts.add_event(place, Event::Called(caller, call, reply));
}
