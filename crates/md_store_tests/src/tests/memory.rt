// Tests of which one allocation in the store may be refused, whichever it is: a step, a call or a listing answers that there is no memory and
// is made again, or an effect is published later. `rt try --test --fail-alloc N..` refuses each in turn.
use super::scene::plays;

// Two flag changes of one message, of which the second meets the first: its step publishes the effect, where memory refused that before.
#[test]
fn an_effect_is_published_later(rt: HostRuntime) {
    let rows = "cur u:2,S|flag u F|flag u R";
    let acts = "0 again 1 silent|0 renames 1|0 again 2 silent|0 lists-again u:2,FS";
    plays(&rt, rt.alloc(), rows, 1, acts, (2, 3, 1));
}

// What memory refused is published on demand, with no further step. The one job renames. Then a pass that was told of nothing catches up, and
// holds what the other holds once that has caught up, too.
#[test]
fn an_effect_is_published_on_demand(rt: HostRuntime) {
    let rows = "cur u:2,S|flag u F";
    let acts =
        "0 again 1 silent|0 renames 1%1 catches-up|1 holds 1|1 lists-again u:2,FS%0 catches-up%both 0 begins 1%\
both 1 begins 0";
    plays(&rt, rt.alloc(), rows, 2, acts, (1, 2, 1));
}

// Two flag changes are called, and a further one, which publishes what was left.
#[test]
fn a_call_has_little_memory(rt: HostRuntime) {
    let rows = "cur u:2,S";
    let acts =
        "0 flags FS flag u F|0 flags FRS flag u R|0 flags FRS flag u F|0 lists-again u:2,FRS";
    plays(&rt, rt.alloc(), rows, 1, acts, (3, 5, 3));
}
