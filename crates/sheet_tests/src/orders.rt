use hyp_order::{first_order, next_order};
use mm_base::List;
use std::test::Fail;

const ORDERS: &[[u32; 3]] = &[
    [0, 1, 2],
    [0, 2, 1],
    [1, 0, 2],
    [1, 2, 0],
    [2, 0, 1],
    [2, 1, 0],
];

// The number of the orders from this one on, up to a thousand.
fn count_orders(order: &mut List<u32>) -> u32 {
    let mut count = 1;
    for _ in 0..1_000 {
        if !next_order(order) {
            return count;
        }
        count = count.saturating_add(1);
    }
    count
}

fn is_order(order: &List<u32>, numbers: &[u32]) -> bool {
    order.as_slice() == numbers
}

fn goes_on(order: &mut List<u32>) -> bool {
    next_order(order)
}

#[test]
fn all_orders_come(rt: HostRuntime) -> Result<(), Fail> {
    let mut order = first_order(rt.alloc(), 3)?;
    for numbers in ORDERS {
        assert!(rt; is_order(&order, numbers));
        let is_last = is_order(&order, &[2, 1, 0]);
        assert!(rt; goes_on(&mut order) == !is_last);
    }
    let mut six = first_order(rt.alloc(), 6)?;
    assert!(rt; count_orders(&mut six) == 720);
    Ok(())
}
