use crate::runs::{USAGE, says, shelf_of, writes};
use ctwasm_top::Status;

/// A flow of the secret into a multiplication that leaks.
const FLOW: &str = "\
no labelling
param 3 0 because marked
push 3 0 because yield
param 0 0 because argument
push 0 11 because yield
result 0 because leave
push 3 2 because yield
param 1 0 because argument
push 1 11 because yield
result 1 because leave
push 3 4 because yield
param 2 0 because argument
push 2 0 because yield
op 2 2 because operand
public because divide
";

#[test]
fn workloads_are_labelled_and_run(rt: HostRuntime) {
    let one = "labelled sites 22 secret 16 classify 1 steps 17 events 2\n";
    let two = "labelled sites 40 secret 28 classify 2 steps 32 events 4\n";
    let table = [
        ("work 1 1", one),
        ("work 0001 01", one),
        ("work 1 2", two),
        (
            "work 2147483647 1",
            "labelled sites 16 secret 13 classify 1 steps 10 events 1\n",
        ),
        (
            "work 7 4",
            "labelled sites 70 secret 50 classify 4 steps 55 events 7\n",
        ),
        (
            "work 0 30",
            "labelled sites 454 secret 334 classify 30 steps 347 events 45\n",
        ),
        (
            "work 1 20000",
            "labelled sites 300358 secret 220122 classify 20000 steps 230415 events 30059\n",
        ),
        ("mul work 1 1", one),
        ("mul work 1 2", two),
    ];
    let mut shelf = shelf_of(&rt, rt.alloc(), &[]);
    for (line, want) in table {
        says(&rt, rt.alloc(), line, &mut shelf, want);
    }
}

#[test]
fn a_secret_that_is_multiplied_has_no_labelling_under_mul(rt: HostRuntime) {
    let mut shelf = shelf_of(&rt, rt.alloc(), &[]);
    let flow = FLOW.as_bytes();
    writes(
        &rt,
        rt.alloc(),
        "mul work 1 3",
        &mut shelf,
        Status::NoLabelling,
        flow,
    );
}

#[test]
fn other_numbers_are_a_wrong_use(rt: HostRuntime) {
    let lines = [
        "work 1 0",
        "work 1 20001",
        "work 2147483648 1",
        "work 4294967297 1",
        "work +1 1",
        "work 0x1 1",
        "work 1_0 1",
        "work 1",
        "work 1 1 1",
        "mul mul work 1 1",
    ];
    let mut shelf = shelf_of(&rt, rt.alloc(), &[]);
    for line in lines {
        let usage = USAGE.as_bytes();
        writes(&rt, rt.alloc(), line, &mut shelf, Status::Usage, usage);
    }
}
