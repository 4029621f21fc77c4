use std::process::Abort;
use tier_table::{
    MAX_EXTENTS, MAX_PAGES, MAX_SIZE, Place, Shape, TooLong, place, shape, tier, used,
};

fn expect_shape<R: Abort>(rt: &R, size: u64, full: u32, extents: u32, tail: u32) {
    let expected = Shape {
        full,
        extents,
        tail,
    };
    assert!(rt; shape(size) == Ok(expected), "at {size} bytes");
}

#[test]
fn shapes_of_some_sizes(rt: HostRuntime) {
    expect_shape(&rt, 0, 0, 0, 0);
    expect_shape(&rt, 4095, 0, 0, 4095);
    expect_shape(&rt, 4096, 1, 1, 0);
    expect_shape(&rt, 4097, 1, 1, 1);
    expect_shape(&rt, 20_480, 5, 5, 0);
    expect_shape(&rt, 3_000_000, 732, 30, 1728);
    expect_shape(&rt, 381_669_375, 93_180, 127, 4095);
    assert!(rt; shape(381_669_376) == Err(TooLong { size: 381_669_376 }));
    assert!(rt; MAX_SIZE == 381_669_375);
}

// Tier, pages of an extent, first and last extent, full pages up to the tier's end.
const ROWS: [(u32, u32, u32, u32, u32); 11] = [
    (0, 1, 0, 3, 4),
    (1, 2, 4, 7, 12),
    (2, 4, 8, 11, 28),
    (3, 8, 12, 15, 60),
    (4, 16, 16, 19, 124),
    (5, 32, 20, 23, 252),
    (6, 64, 24, 27, 508),
    (7, 128, 28, 31, 1020),
    (8, 256, 32, 35, 2044),
    (9, 512, 36, 39, 4092),
    (10, 1024, 40, 126, 93_180),
];

// The last full page of a tier stands at the end of its last extent, and that many full pages fill it.
fn expect_row<R: Abort>(rt: &R, row: (u32, u32, u32, u32, u32)) {
    let (number, pages, first, last, end) = row;
    assert!(rt;
        (first as usize) < MAX_EXTENTS
            && (last as usize) < MAX_EXTENTS
            && 0 < end
            && end <= MAX_PAGES
            && 0 < pages
    );
    assert!(rt; tier(first) == number && tier(last) == number);
    let expected = Place {
        extent: last,
        offset: pages - 1,
    };
    assert!(rt; place(end - 1) == expected, "tier {number}");
    expect_shape(rt, 4096 * u64::from(end), end, last + 1, 0);
}

#[test]
fn rows_of_the_table(rt: HostRuntime) {
    for row in ROWS {
        expect_row(&rt, row);
    }
}

// The pages that each extent of a size uses, added up, and those of the last one.
fn used_of(size: u64) -> Result<(u64, u32), TooLong> {
    let found = shape(size)?;
    let mut sum = 0u64;
    let mut last = 0;
    for i in 0..found.extents {
        last = used(size, i);
        sum = sum.saturating_add(u64::from(last));
    }
    Ok((sum, last))
}

#[test]
fn extents_in_use(rt: HostRuntime) {
    assert!(rt; used_of(3_000_000) == Ok((732, 96)));
    assert!(rt; used_of(20_480) == Ok((5, 1)));
    assert!(rt; used_of(MAX_SIZE) == Ok((93_180, 1024)));
}
