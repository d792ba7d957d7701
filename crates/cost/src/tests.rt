//! Examples of costs and grids.
use super::*;
use std::cmp::Ordering;
use std::test::Fail;

const MONEY_FIRST: Pair<Money, LeftOut> = Pair {
    first: Money,
    second: LeftOut,
};

#[test]
fn the_first_rule_goes_before_the_second(rt: HostRuntime) {
    let left_out_first = Pair {
        first: LeftOut,
        second: Money,
    };
    let cheap = (
        MONEY_FIRST.charge(12_000, 20, 20),
        left_out_first.charge(12_000, 20, 20),
    );
    let dear = (
        MONEY_FIRST.charge(11_000, 30, 0),
        left_out_first.charge(11_000, 30, 0),
    );
    assert_eq!(rt; MONEY_FIRST.compare(cheap.0, dear.0), Ordering::Less);
    assert_eq!(rt; left_out_first.compare(cheap.1, dear.1), Ordering::Greater);
    assert_eq!(rt;
        MONEY_FIRST.compare((240_000, 1), (240_000, 0)),
        Ordering::Greater
    );
}

#[test]
fn joining_is_exact(rt: HostRuntime) {
    let most = MONEY_FIRST.charge(u32::MAX, u32::MAX, u32::MAX);
    let alone = MONEY_FIRST.join(MONEY_FIRST.zero(), most);
    assert_eq!(rt; MONEY_FIRST.compare(alone, most), Ordering::Equal);
    let twice = MONEY_FIRST.join(most, most);
    assert_eq!(rt; twice.0, 36_893_488_130_239_234_050);
    assert_eq!(rt; twice.1, 8_589_934_590);
}

#[test]
fn the_first_cheapest_of_a_row(rt: HostRuntime) -> Result<(), Fail> {
    let mut cells = [MONEY_FIRST.zero(); 7];
    let mut grid = Grid::new(&mut cells, 2, 3).ok_or("too few cells")?;
    grid.fill((5, 5));
    assert!(rt; grid.put(1, 1, (5, 4)).is_some());
    assert!(rt; grid.put(1, 2, (5, 4)).is_some());
    assert!(rt; grid.put(1, 3, (0, 0)).is_none());
    assert_eq!(rt; cheapest_in(&MONEY_FIRST, &grid, 0), Some(0));
    assert_eq!(rt; cheapest_in(&MONEY_FIRST, &grid, 1), Some(1));
    assert_eq!(rt; cheapest_in(&MONEY_FIRST, &grid, 2), None);
    Ok(())
}
