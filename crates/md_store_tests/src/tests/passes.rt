// What passes see of one another's steps, one after another.
use super::scene::plays;

// The jobs 1 and 2 deliver `a` and `b`, 3 expunges `t`, 4 flags it, 5 takes `n` to cur, and 6 copies `c` to the other folder. A pass that was
// told of two effects lists both, and one that only lists sees those of an earlier listing in a later one. A pass whose flag is answered
// NotThere, after the other's expunge, lists no such message. A message that is taken from new to cur between the halves of a listing is shown
// once, as it is in cur. A copy that was told is in the next listing.
#[test]
fn a_later_listing_shows_no_less(rt: HostRuntime) {
    let rows =
        "new n|cur t:2,T|cur c:2,S|deliver a|deliver b|expunge t|flag t S|seen n S|copy c - d";
    let acts =
        "0 ends 1 delivered told%1 lists 0 a c:2,S n t:2,T%0 ends 2 delivered told|0 lists 0 a b c:2,S n t:2,T%\
1 lists 0 a b c:2,S n t:2,T%0 ends 3 expunged told%1 ends 4 gone silent|1 lists 0 a b c:2,S n%first 1%0 ends 5 S told%\
1 second a b n>a b c:2,S n:2,S%0 ends 6 copied told|0 lists 1 d:2,S";
    plays(&rt, rt.alloc(), rows, 2, acts, (6, 16, 5));
}

// One pass delivers, and the other, which was told of nothing, learns from it. Its listing then shows the message.
#[test]
fn a_pass_is_sent_word(rt: HostRuntime) {
    let rows = "deliver a";
    let acts =
        "0 ends 1 delivered told%both 0 is longer%both 1 learns%both 0 begins 1%1 holds 1|1 lists 0 a";
    plays(&rt, rt.alloc(), rows, 2, acts, (1, 4, 1));
}

// A pass is dropped amid a job, right after its link. The other ends that job and makes the next one, and lists both messages.
#[test]
fn others_go_on_without_a_pass(rt: HostRuntime) {
    let rows = "deliver a|deliver b";
    let acts =
        "1 steps 1 silent|1 steps 1 silent|1 steps 1 told%drop%0 ends 1 delivered silent|0 lists 0 a|0 ends 2 delivered told|\
0 lists 0 a b";
    plays(&rt, rt.alloc(), rows, 2, acts, (2, 8, 2));
}

// One pass takes the message from new to cur, and reads new, where it isn't any more. The other, which was told of nothing, reads cur, and has
// learned what the first held.
#[test]
fn two_passes_list_a_message_that_was_taken(rt: HostRuntime) {
    let rows = "new n|seen n S";
    let acts = "0 ends 1 S told%both 1 begins 0%first 0%1 second >n:2,S%both 0 begins 1";
    plays(&rt, rt.alloc(), rows, 2, acts, (1, 2, 1));
}
