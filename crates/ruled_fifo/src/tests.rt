ghost use Rattle.std.specs.Prelude.{◌<◌};
ghost use Rattle.ruled_fifo.specs.Ends.{SendsToSame, TakesFromSame};

use crate::{Full, NoMemory, SendEnd, TakeEnd, fifo, settle};
use std::alloc::Global;
use std::sync::Wait;
use std::test::*;
use std::thread;
use std::thread::Threads;

/// Sends the numbers below `count`, in order.
fn send_all<R: Wait>(rt: &R, mut send: SendEnd, count: u32) -> SendEnd
    ensures { SendsToSame send result }
{
    let mut next = 0u32;
    for _ in rt.forever() {
        if next >= count {
            break;
        }
        match send.offer(rt, i128::from(next)) {
            Ok(()) => next += 1,
            Err(_) => thread::yield_now(),
        }
    }
    send
}

/// Takes `count` values, and says whether they are the numbers below `count`, in order.
fn take_all<R: Wait>(rt: &R, mut take: TakeEnd, count: u32) -> (TakeEnd, bool)
    ensures { TakesFromSame take result.0 }
{
    let mut next = 0u32;
    let mut in_order = true;
    for _ in rt.forever() {
        if next >= count {
            break;
        }
        match take.take(rt) {
            Ok(value) => {
                in_order = in_order && value == i128::from(next);
                next += 1;
            }
            Err(_) => thread::yield_now(),
        }
    }
    (take, in_order)
}

/// Passes the numbers below `count` from one thread to another, and sends one more in the end: whether
/// they came in order, and how many values were left.
fn pass_on<R: Threads + Wait + Sync>(
    rt: &R,
    alloc: Global,
    capacity: u32,
    count: u32,
) -> Result<(bool, u64), NoMemory>
    requires { 0 < capacity }
{
    let (send, take) = fifo(alloc, capacity)?;
    let (mut send, (take, in_order)) = thread::join(
        rt,
        move || -> SendEnd
            ensures { SendsToSame send result }
        { send_all(rt, send, count) },
        move || -> (TakeEnd, bool)
            ensures { TakesFromSame take result.0 }
        { take_all(rt, take, count) },
    );
    let _ = send.offer(rt, -1);
    Ok((in_order, settle(rt, send, take)))
}

#[test]
fn one_place(rt: HostRuntime) -> Result<(), Fail> {
    let (mut send, mut take) = fifo(rt.alloc(), 1)?;
    assert!(rt; send.offer(&rt, 7).is_ok());
    assert!(rt; matches!(send.offer(&rt, 8), Err(Full(8))));
    assert!(rt; matches!(take.take(&rt), Ok(7)));
    assert!(rt; take.take(&rt).is_err());
    assert_eq!(rt; settle(&rt, send, take), 0);
    Ok(())
}

#[test]
fn between_two_threads(rt: HostRuntime) -> Result<(), Fail> {
    for capacity in [1, 64] {
        assert_eq!(rt; pass_on(&rt, rt.alloc(), capacity, 100_000)?, (true, 1));
    }
    Ok(())
}
