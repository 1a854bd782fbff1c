// The stampede, as a test: a short one.
use super::scene::{Plan, Scene, stage};
use super::stampede::{Stampede, THREADS, image};
use std::alloc::Global;
use std::process::Abort;
use std::sync::Wait;
use std::thread::Threads;

fn is_run<R: Threads + Wait + Abort + Sync>(rt: &R, alloc: Global) -> bool {
    match image(alloc) {
        Ok(image) => {
            let stampede = Stampede::new(alloc, &image, 0, 128);
            let plan = Plan {
                scene: Scene::Stampede(&stampede),
                calls: "",
                passes: THREADS,
                wanted: (0, 0, 0),
            };
            stage(rt, alloc, &plan, image) == Some(None)
        }
        Err(_) => false,
    }
}

#[test]
fn a_stampede(rt: HostRuntime) {
    assert!(rt; is_run(&rt, rt.alloc()));
}
