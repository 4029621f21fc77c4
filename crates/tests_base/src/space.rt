// The space of a data area. Heads are worked out by hand from the rule: the least free multiple of a tier's pages.

ghost use Rattle.std.specs.Prelude.{◌≡◌, ◌+◌, ◌≤◌};

use blob_base::Owned;
use extent_alloc::{NoSpace, Space};
use std::process::Abort;
use std::test::Fail;

// Takes a place, and compares its head.
fn expect_take<R: Abort>(rt: &R, space: &mut Space, tier: u32, head: u32)
    requires tier { tier ≤ 10 }
    requires spare { 1 ≤ space.old.spare }
    ensures { space.new.spare + 1 ≡ space.old.spare }
{
    let taken = space.take(tier);
    assert!(rt; taken == Ok(head), "{taken:?} of tier {tier}");
}

// Finds no place.
fn expect_none<R: Abort>(rt: &R, space: &mut Space, tier: u32)
    requires tier { tier ≤ 10 }
    requires spare { 1 ≤ space.old.spare }
    ensures { space.new.spare ≡ space.old.spare }
{
    let none = space.take(tier).err().expect(rt, "no place");
    assert!(rt; none == NoSpace { tier }, "{none:?}");
}

// The extents of a content of 20,480 bytes, and a tail behind them.
#[test]
fn the_least_free_places(rt: HostRuntime) -> Result<(), Fail> {
    let owned = Owned::new(rt.alloc());
    let mut space = Space::build(rt.alloc(), &owned, 1024).expect(&rt, "a space");
    assert_eq!(rt; space.pages(), 1024);
    space.reserve(7)?;
    expect_take(&rt, &mut space, 0, 0);
    expect_take(&rt, &mut space, 0, 1);
    expect_take(&rt, &mut space, 0, 2);
    expect_take(&rt, &mut space, 0, 3);
    expect_take(&rt, &mut space, 1, 4);
    expect_take(&rt, &mut space, 2, 8);
    expect_take(&rt, &mut space, 0, 6);
    Ok(())
}

// Every page but 28 to 31 is taken, then these four.
#[test]
fn no_place_is_left(rt: HostRuntime) -> Result<(), Fail> {
    let owned = Owned::new(rt.alloc());
    let mut space = Space::build(rt.alloc(), &owned, 1024).expect(&rt, "a space");
    space.reserve(11)?;
    expect_take(&rt, &mut space, 4, 0);
    expect_take(&rt, &mut space, 3, 16);
    expect_take(&rt, &mut space, 2, 24);
    expect_take(&rt, &mut space, 5, 32);
    expect_take(&rt, &mut space, 6, 64);
    expect_take(&rt, &mut space, 7, 128);
    expect_take(&rt, &mut space, 8, 256);
    expect_take(&rt, &mut space, 9, 512);
    expect_none(&rt, &mut space, 3);
    expect_take(&rt, &mut space, 2, 28);
    expect_none(&rt, &mut space, 0);
    Ok(())
}
