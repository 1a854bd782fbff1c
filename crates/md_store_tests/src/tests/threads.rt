// Threads that step and list at once.
use super::scene::plays;

// Each of four threads makes four deliveries, and lists each that it was told of; two make their eight.
#[test]
fn threads_deliver(rt: HostRuntime) {
    for (passes, steps, effects) in [(2, 32, 8), (4, 64, 16)] {
        let rows =
            "cur z|deliver a|deliver b|deliver c|deliver d|deliver e|deliver f|deliver g|deliver h|\
deliver i|deliver j|deliver k|deliver l|deliver m|deliver n|deliver o|deliver p";
        let acts = "0 ends 1 delivered told|0 lists 0 a ..|0 ends 2 delivered told|0 lists 0 b ..|\
0 ends 3 delivered told|0 lists 0 c ..|0 ends 4 delivered told|0 lists 0 d ..|\
1 ends 5 delivered told|1 lists 0 e ..|1 ends 6 delivered told|1 lists 0 f ..|\
1 ends 7 delivered told|1 lists 0 g ..|1 ends 8 delivered told|1 lists 0 h ..|\
2 ends 9 delivered told|2 lists 0 i ..|2 ends 10 delivered told|2 lists 0 j ..|\
2 ends 11 delivered told|2 lists 0 k ..|2 ends 12 delivered told|2 lists 0 l ..|\
3 ends 13 delivered told|3 lists 0 m ..|3 ends 14 delivered told|3 lists 0 n ..|\
3 ends 15 delivered told|3 lists 0 o ..|3 ends 16 delivered told|3 lists 0 p ..";
        plays(&rt, rt.alloc(), rows, passes, acts, (16, steps, effects));
    }
}

// One thread delivers while a second flags another message. A third pass lists before and after them: it makes no step, and so it learns of
// their effects by listing alone.
#[test]
fn a_told_delivery_is_listed(rt: HostRuntime) {
    let rows =
        "cur z:2,|deliver a|deliver b|deliver c|deliver d|flag z F|flag z R|flag z S|flag z T";
    let acts = "2 lists 0 z:2,%\
0 ends 1 delivered told|0 lists 0 a ..|0 ends 2 delivered told|0 lists 0 b ..|0 ends 3 delivered told|0 lists 0 c ..|\
0 ends 4 delivered told|0 lists 0 d ..|1 ends 5 F told|1 ends 6 FR told|1 ends 7 FRS told|1 ends 8 FRST told%\
2 lists 0 a b c d z:2,FRST";
    plays(&rt, rt.alloc(), rows, 3, acts, (8, 24, 8));
}

// A pass lists, another thread delivers and ends, and the pass lists once more. It makes no step.
#[test]
fn a_listing_enters_anew(rt: HostRuntime) {
    let rows = "cur z|deliver a";
    let acts = "0 lists 0 z%1 ends 1 delivered told|1 lists 0 a ..%0 lists 0 a z";
    plays(&rt, rt.alloc(), rows, 2, acts, (1, 4, 1));
}

// A thread makes the link, and waits there, inside the lock. A listing shows nothing meanwhile, and the message once the link was made.
#[test]
fn a_listing_waits_for_no_link(rt: HostRuntime) {
    let rows = "deliver a";
    let acts = "0 shuts|0 steps 1 silent|0 steps 1 silent%0 steps 1 told|1 peeks%1 lists 0 a";
    plays(&rt, rt.alloc(), rows, 2, acts, (1, 3, 1));
}

#[test]
fn two_threads_call_at_once(rt: HostRuntime) {
    let acts =
        "0 calls delivered deliver a|0 lists 0 a ..|0 calls delivered deliver b|0 lists 0 b ..|\
0 calls delivered deliver c|0 lists 0 c ..|0 calls delivered deliver d|0 lists 0 d ..|\
1 calls delivered deliver e|1 lists 0 e ..|1 calls delivered deliver f|1 lists 0 f ..|\
1 calls delivered deliver g|1 lists 0 g ..|1 calls delivered deliver h|1 lists 0 h ..%\
0 lists 0 a b c d e f g h%1 lists 0 a b c d e f g h%given 8";
    plays(&rt, rt.alloc(), "", 2, acts, (8, 32, 8));
}

// One thread calls, and another steps its job: just one of them is given the answer.
#[test]
fn one_thread_is_given_the_answer(rt: HostRuntime) {
    let acts = "0 calls delivered deliver a|1 takes%0 lists 0 a%1 lists 0 a%given 1";
    for _ in 0..16 {
        plays(&rt, rt.alloc(), "", 2, acts, (1, 4, 1));
    }
}
