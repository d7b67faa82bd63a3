ghost use Rattle.std.specs.Prelude.{◌≡◌, length, MatchResult};
ghost use Rattle.ctw_stack.specs.Opens.{slot_count};

use ctw_ops::Width;
use ctw_stack::{Slot, Stack, Underflow};
use std::alloc::Global;
use std::process::Abort;
use std::test::Fail;

const WORD: Slot<u32> = Slot::Known {
    width: Width::W32,
    tag: 5,
};

const LONG: Slot<u32> = Slot::Known {
    width: Width::W64,
    tag: 6,
};

const EITHER: Slot<u32> = Slot::Wide { tag: 7 };

fn pop(rt: &impl Abort, stack: &mut Stack<u32>) -> Result<Slot<u32>, Underflow> {
    assert!(rt; stack.innermost().is_some());
    stack.pop()
}

/// The end of a block: whether it is a loop, its result, and how many slots it holds.
type End = (bool, Option<(Width, u32)>, u32);

/// A stack with a block that yields 32 bits, with one slot, and a loop inside it that yields 64 bits.
fn two_blocks(alloc: Global) -> Result<Stack<u32>, Fail>
    ensures { MatchResult result (λ stack. (length stack ≡ 2) × (slot_count stack ≡ 1)) (λ _. Unit {0}) }
{
    let mut stack = Stack::new(alloc);
    stack.enter(false, Some((Width::W32, 1)))?;
    stack.push(WORD)?;
    stack.enter(true, Some((Width::W64, 2)))?;
    Ok(stack)
}

#[test]
fn a_dead_block_gives_unknown_slots_below_its_own(rt: HostRuntime) -> Result<(), Fail> {
    let mut stack = two_blocks(rt.alloc())?;
    stack.push(LONG)?;
    stack.kill();
    stack.push(EITHER)?;
    for want in [Ok(EITHER), Ok(Slot::Unknown), Ok(Slot::Unknown)] {
        assert!(rt; pop(&rt, &mut stack) == want);
    }
    assert!(rt; stack.leave() == Some(0));
    for want in [Ok(WORD), Err(Underflow)] {
        assert!(rt; pop(&rt, &mut stack) == want);
    }
    Ok(())
}

#[test]
fn a_branch_to_a_loop_carries_nothing(rt: HostRuntime) -> Result<(), Fail> {
    let stack = two_blocks(rt.alloc())?;
    for (depth, want) in [
        (0, Some(None)),
        (1, Some(Some((Width::W32, 1)))),
        (2, None),
        (4_294_967_295, None),
    ] {
        assert!(rt; stack.target(depth) == want, "at {depth}");
    }
    Ok(())
}

#[test]
fn each_end_has_its_result_and_its_slots(rt: HostRuntime) -> Result<(), Fail> {
    let mut stack = two_blocks(rt.alloc())?;
    stack.push(LONG)?;
    stack.push(EITHER)?;
    let ends: [End; 2] = [
        (true, Some((Width::W64, 2)), 2),
        (false, Some((Width::W32, 1)), 1),
    ];
    for (loops, yields, count) in ends {
        assert!(rt; stack.innermost() == Some((loops, yields)));
        assert!(rt; stack.leave() == Some(count));
    }
    assert!(rt; stack.innermost() == None);
    assert!(rt; stack.leave() == None);
    Ok(())
}
