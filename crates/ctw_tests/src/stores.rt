// The store, by its public calls. Expected values are those of the standard's memory instructions.
ghost use Rattle.std.specs.Prelude.{◌≡◌, ◌≤◌, ◌+◌, length};

use ctw_ops::{GlobalType, Label, Limits, MemType, ValType, Width};
use ctw_store::{OutOfBounds, Store, StoreFault};
use std::alloc::{AllocError, Global};
use std::process::Abort;

const FULL: u64 = 0x8877_6655_4433_2211;

/// A store with two memories. A call that may not be made answers None here.
#[derive(Drop)]
struct Two {
    store: Store,
    ghost two: { length store.storage.memories ≡ 2 },
}

impl Two {
    #[tactic(auto, unfolding(ctw_ops::specs::Limits::most_set_pages))]
    fn new(alloc: Global, first: Limits, second: Limits) -> Result<Two, AllocError>
        requires { first.min + second.min ≤ 4096 }
    {
        let mut store = Store::new(alloc);
        let label = Label::Secret;
        store.add_memory(MemType {
            label,
            limits: first,
        })?;
        store.add_memory(MemType {
            label,
            limits: second,
        })?;
        Ok(Two { store })
    }

    fn load(&self, mem: u32, at: u64, bytes: u8) -> Option<Result<u64, OutOfBounds>> {
        match bytes {
            1 | 2 | 4 | 8 if mem < 2 => Some(self.store.load(mem, at, bytes)),
            _ => None,
        }
    }

    fn store(
        &mut self,
        mem: u32,
        at: u64,
        bytes: u8,
        value: u64,
    ) -> Option<Result<(), StoreFault>> {
        match bytes {
            1 | 2 | 4 | 8 if mem < 2 => Some(self.store.store(mem, at, bytes, value)),
            _ => None,
        }
    }

    fn grow(&mut self, mem: u32, pages: u32) -> Option<Result<Option<u32>, AllocError>> {
        if mem < 2 {
            Some(self.store.grow(mem, pages))
        } else {
            None
        }
    }

    fn size(&self, mem: u32) -> Option<u32> {
        if mem < 2 {
            Some(self.store.size(mem))
        } else {
            None
        }
    }

    fn make_ready(&mut self, mem: u32, at: u64, count: u32) -> Option<Result<(), AllocError>> {
        if mem >= 2 {
            return None;
        }
        let length = self.store.size(mem) as u64 * 65_536;
        if at > length {
            return None;
        }
        if count as u64 > length - at {
            return None;
        }
        Some(self.store.make_ready(mem, at, count))
    }
}

fn limits(min: u32, max: Option<u32>) -> Limits
    ensures { result.min ≡ min }
{
    Limits { min, max }
}

/// Two memories of these least sizes, without greatest ones.
fn pages(rt: &impl Abort, alloc: Global, first: u32, second: u32) -> Two
    requires { first + second ≤ 4096 }
{
    Two::new(alloc, limits(first, None), limits(second, None)).expect(rt, "memory")
}

#[test]
fn numbers_are_little_endian_at_each_width(rt: HostRuntime) {
    let rows: &[(u8, u64)] = &[(1, 0x11), (2, 0x2211), (4, 0x4433_2211), (8, FULL)];
    // Within a page, and over two pages.
    let places: &[(u64, u64)] = &[
        (15, 16),
        (65_534, 65_535),
        (65_532, 65_533),
        (65_528, 65_529),
    ];
    for (before, at) in places {
        for (bytes, number) in rows {
            let mut two = pages(&rt, rt.alloc(), 2, 0);
            assert_eq!(rt;
                two.store(0, *at, *bytes, FULL),
                Some(Ok(())),
                "store {bytes} at {at}"
            );
            assert_eq!(rt;
                two.load(0, *at, *bytes),
                Some(Ok(*number)),
                "load {bytes} at {at}"
            );
            assert_eq!(rt; two.load(0, *at, 8), Some(Ok(*number)), "all at {at}");
            assert_eq!(rt; two.load(0, *at, 1), Some(Ok(0x11)), "first byte at {at}");
            assert_eq!(rt; two.load(0, *before, 1), Some(Ok(0)), "byte before {at}");
        }
    }
}

#[test]
fn a_store_over_two_pages_writes_both(rt: HostRuntime) {
    let mut two = pages(&rt, rt.alloc(), 2, 0);
    assert_eq!(rt; two.store(0, 65_534, 4, 0x0403_0201), Some(Ok(())));
    let bytes: &[(u64, u64)] = &[
        (65_533, 0),
        (65_534, 1),
        (65_535, 2),
        (65_536, 3),
        (65_537, 4),
        (65_538, 0),
    ];
    for (at, byte) in bytes {
        assert_eq!(rt; two.load(0, *at, 1), Some(Ok(*byte)), "byte at {at}");
    }
    assert_eq!(rt; two.load(0, 65_533, 8), Some(Ok(0x0403_0201_00)));
}

#[test]
fn accesses_past_the_end_are_out_of_bounds(rt: HostRuntime) {
    let mut two = pages(&rt, rt.alloc(), 1, 0);
    let rows: &[(u32, u64, u8, bool)] = &[
        (0, 65_535, 1, true),
        (0, 65_534, 2, true),
        (0, 65_532, 4, true),
        (0, 65_528, 8, true),
        (0, 65_536, 1, false),
        (0, 65_535, 2, false),
        (0, 65_533, 4, false),
        (0, 65_529, 8, false),
        (0, 8_589_934_590, 4, false),
        (0, 0xFFFF_FFFF_FFFF_FFFF, 1, false),
        (0, 0xFFFF_FFFF_FFFF_FFFC, 8, false),
        (1, 0, 1, false),
    ];
    for (mem, at, bytes, inside) in rows {
        let loaded = if *inside { Ok(0) } else { Err(OutOfBounds) };
        assert_eq!(rt;
            two.load(*mem, *at, *bytes),
            Some(loaded),
            "load {bytes} at {at}"
        );
        let stored = if *inside {
            Ok(())
        } else {
            Err(StoreFault::OutOfBounds)
        };
        assert_eq!(rt;
            two.store(*mem, *at, *bytes, 0),
            Some(stored),
            "store {bytes} at {at}"
        );
    }
    // What is refused writes nothing, the bytes inside too.
    assert_eq!(rt;
        two.store(0, 65_533, 4, FULL),
        Some(Err(StoreFault::OutOfBounds))
    );
    assert_eq!(rt; two.load(0, 65_528, 8), Some(Ok(0)));
}

#[test]
fn memories_grow_up_to_each_limit(rt: HostRuntime) {
    // The declared greatest size.
    let made = Two::new(rt.alloc(), limits(1, Some(2)), limits(0, Some(0)));
    let mut two = made.expect(&rt, "memory");
    let rows: &[(u32, u32, Option<u32>, u32)] = &[
        (0, 1, Some(1), 2),
        (0, 1, None, 2),
        (0, 0, Some(2), 2),
        (0, 0xFFFF_FFFF, None, 2),
        (1, 1, None, 0),
        (1, 0, Some(0), 0),
    ];
    for (mem, count, answer, size) in rows {
        assert_eq!(rt;
            two.grow(*mem, *count),
            Some(Ok(*answer)),
            "grow {mem} by {count}"
        );
        assert_eq!(rt; two.size(*mem), Some(*size), "grow {mem} by {count}");
    }
    // 4,096 pages over all memories.
    let mut two = pages(&rt, rt.alloc(), 1, 0);
    let rows: &[(u32, u32, Option<u32>, u32)] = &[
        (0, 4_096, None, 1),
        (0, 4_000, Some(1), 4_001),
        (1, 96, None, 0),
        (1, 95, Some(0), 95),
        (0, 1, None, 4_001),
        (1, 1, None, 95),
        (0, 0, Some(4_001), 4_001),
    ];
    for (mem, count, answer, size) in rows {
        assert_eq!(rt;
            two.grow(*mem, *count),
            Some(Ok(*answer)),
            "grow {mem} by {count}"
        );
        assert_eq!(rt; two.size(*mem), Some(*size), "grow {mem} by {count}");
    }
    // New pages are zeros, and old bytes stay.
    let mut two = pages(&rt, rt.alloc(), 1, 1);
    assert_eq!(rt; two.store(0, 65_532, 4, 0x0403_0201), Some(Ok(())));
    assert_eq!(rt; two.grow(0, 1), Some(Ok(Some(1))));
    assert_eq!(rt; two.load(0, 65_532, 8), Some(Ok(0x0403_0201)));
    assert_eq!(rt; two.load(1, 65_528, 8), Some(Ok(0)));
}

#[test]
fn pages_that_are_made_ready_are_written(rt: HostRuntime) {
    let mut two = pages(&rt, rt.alloc(), 3, 0);
    assert_eq!(rt; two.store(0, 65_536, 1, 7), Some(Ok(())));
    let rows: &[(u64, u32)] = &[(65_535, 65_538), (0, 196_608), (196_608, 0), (0, 0)];
    for (at, count) in rows {
        assert_eq!(rt;
            two.make_ready(0, *at, *count),
            Some(Ok(())),
            "{count} at {at}"
        );
        assert_eq!(rt;
            two.load(0, 65_529, 8),
            Some(Ok(0x0700_0000_0000_0000)),
            "{count} at {at}"
        );
        assert_eq!(rt; two.load(0, 131_072, 8), Some(Ok(0)), "{count} at {at}");
    }
    assert_eq!(rt; two.store(0, 131_068, 8, FULL), Some(Ok(())));
    assert_eq!(rt; two.load(0, 131_072, 4), Some(Ok(0x8877_6655)));
}

#[test]
fn globals_begin_with_their_numbers(rt: HostRuntime) {
    let mut store = Store::new(rt.alloc());
    let value = ValType {
        width: Width::W64,
        label: Label::Public,
    };
    let global = store.add_global(
        GlobalType {
            value,
            mutable: true,
        },
        5,
    );
    assert_eq!(rt; global.expect(&rt, "memory"), 0);
    assert_eq!(rt; store.global(0), 5);
    store.set_global(0, FULL);
}

#[test]
fn entries_begin_empty(rt: HostRuntime) {
    let mut store = Store::new(rt.alloc());
    let table = store.add_table(limits(3, Some(3)));
    assert_eq!(rt; table.expect(&rt, "memory"), 0);
    assert_eq!(rt; store.entry(0, 2), Some(None));
    assert_eq!(rt; store.entry(0, 3), None);
    store.set_entry(0, 2, 7);
}
