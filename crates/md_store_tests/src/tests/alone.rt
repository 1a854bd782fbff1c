// Each call of a store once, over one thread.
use super::scene::{is_played, plays};
use md_store::OpenError;

#[test]
fn passes_are_1_to_64(rt: HostRuntime) {
    let refused = Some(OpenError::BadPasses);
    for (passes, refusal) in [(0, refused), (65, refused), (64, None), (2, None)] {
        let rows = "cur u|deliver a";
        let acts = "0 holds 0";
        let wanted = (1, 0, 0);
        assert!(rt;
            is_played(&rt, rt.alloc(), rows, passes, acts, wanted, refusal),
            "{passes}"
        );
    }
}

// The delivery of `hello` and a line end takes five steps. A name that was used, a job that has its answer, one that isn't there, and a folder
// that isn't there are refused.
#[test]
fn read_and_submit_through_the_lock(rt: HostRuntime) {
    let acts =
        "0 submits 1 deliver u hello\n|0 ends 1 delivered told|0 reads u hello\n|0 reads v nothing|\
0 submits refused deliver u hello\n|0 steps 1 answered|0 steps 2 no-job|0 no-folder";
    plays(&rt, rt.alloc(), "", 1, acts, (1, 5, 1));
}

#[test]
fn a_refused_call_comes_back(rt: HostRuntime) {
    let acts =
        "0 calls delivered deliver a|0 lists 0 a ..|0 calls refused deliver a|0 lists 0 a%given 1";
    plays(&rt, rt.alloc(), "", 1, acts, (1, 4, 1));
}

#[test]
fn one_lock_holds_a_whole_delivery(rt: HostRuntime) {
    let acts = "0 locked|0 lists 0 a";
    plays(&rt, rt.alloc(), "", 1, acts, (1, 4, 1));
}
