//! When a shared value is freed.
use crate::Shared;
use std::collections::VecDeque;
use std::mem::size_of;
use std::rc::Rc;
use std::test::Fail;

#[test]
fn the_last_owner_drops_the_value(rt: HostRuntime) -> Result<(), Fail> {
    let witness = Rc::new(rt.alloc(), 1u8)?;
    let first = Shared::new(rt.alloc(), witness.clone()?)?;
    let second = first.share();
    let third = second.clone()?;
    assert!(rt; first.ptr_eq(&first) && first.ptr_eq(&third) && third.ptr_eq(&second));
    drop(second);
    drop(first);
    assert_eq!(rt; Rc::strong_count(&witness), 2);
    let other = Shared::new(rt.alloc(), witness.clone()?)?;
    assert!(rt; !third.ptr_eq(&other) && !other.ptr_eq(&third));
    drop(other);
    assert_eq!(rt; **third.get(), 1);
    drop(third);
    assert_eq!(rt; Rc::strong_count(&witness), 1);
    Ok(())
}

#[test]
fn a_thousand_owners_go_in_mixed_order(rt: HostRuntime) -> Result<(), Fail> {
    let witness = Rc::new(rt.alloc(), 1u8)?;
    let first = Shared::new(rt.alloc(), witness.clone()?)?;
    let mut owners = VecDeque::new(rt.alloc());
    for _ in 0..1000u32 {
        owners.push_back(first.clone()?)?;
    }
    drop(first);
    for turn in 0..1000u32 {
        assert_eq!(rt; Rc::strong_count(&witness), 2);
        let gone = if turn % 3 == 0 {
            owners.pop_front()
        } else {
            owners.pop_back()
        };
        assert!(rt; gone.is_some_and(|owner| **owner.get() == 1));
    }
    assert_eq!(rt; Rc::strong_count(&witness), 1);
    Ok(())
}

// No test can make as many owners as the count can hold, so this one fills the count.
#[test]
fn a_full_count_stays_full(rt: HostRuntime) -> Result<(), Fail> {
    let first = Shared::new(rt.alloc(), 5u8)?;
    let second = first.share();
    let kept = first.keep();
    let third = second.share();
    drop(first);
    drop(second);
    let again = third.keep();
    let fourth = third.clone()?;
    let other = Shared::new(rt.alloc(), 5u8)?;
    assert!(rt; !third.ptr_eq(&fourth) && !third.ptr_eq(&other) && !other.ptr_eq(&third));
    drop(third);
    assert_eq!(rt; *fourth.get(), 5);
    drop(fourth);
    assert!(rt; *kept == 5 && *again == 5);
    Ok(())
}

#[test]
fn a_handle_is_one_word(rt: HostRuntime) {
    assert_eq!(rt; size_of::<Shared<[u64; 9]>>(), size_of::<usize>());
}
