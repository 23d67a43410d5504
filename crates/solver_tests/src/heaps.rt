//! Variables by their scores.
use std::alloc::{AllocError, Global};
use var_heap::VarHeap;

/// Whether exactly these variables are popped, in this order.
fn pops(heap: &mut VarHeap, order: &[u32]) -> bool {
    for variable in order {
        match heap.pop() {
            Some(first) => {
                if first != *variable {
                    return false;
                }
            }
            None => return false,
        }
    }
    heap.pop().is_none()
}

/// Whether variables are popped by decreasing score.
fn greatest_first(alloc: Global) -> Result<bool, AllocError> {
    let mut heap = VarHeap::new(alloc, 3)?;
    heap.bump(2, 5);
    heap.bump(3, 7);
    heap.divide(1);
    let well = pops(&mut heap, &[3, 2, 1]);
    drop(heap);
    Ok(well)
}

/// Whether scores saturate, and a variable pushed twice is held once.
fn back_again(alloc: Global) -> Result<bool, AllocError> {
    let mut heap = VarHeap::new(alloc, 2)?;
    heap.bump(1, 18446744073709551615);
    heap.bump(2, 18446744073709551614);
    heap.bump(2, 5);
    heap.divide(1);
    heap.bump(2, 1);
    let first = heap.pop().unwrap_or(0);
    let gone = !heap.contains(2);
    heap.push(2);
    heap.push(2);
    let back = heap.contains(2);
    let popped = pops(&mut heap, &[2, 1]);
    drop(heap);
    Ok(first == 2 && gone && back && popped)
}

#[test]
fn variables_come_by_decreasing_score(rt: HostRuntime) {
    assert!(rt; matches!(greatest_first(rt.alloc()), Ok(true)));
}

#[test]
fn a_popped_variable_comes_once_more_after_it_is_pushed_twice(rt: HostRuntime) {
    assert!(rt; matches!(back_again(rt.alloc()), Ok(true)));
}
