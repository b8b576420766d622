//! The texts of the faults of a launch, which are those of the faults that a server and a run make of them.
use launcher::LaunchFault;

#[test]
fn each_fault_of_a_launch_has_a_text(rt: HostRuntime) {
    let (thread, memory) = (LaunchFault::NoThread, LaunchFault::Memory);
    let shown = format!(in rt.alloc(); "{thread}, {memory}").expect(&rt, "memory");
    assert!(rt; shown.as_str() == "no thread, out of memory");
    drop(shown);
}
