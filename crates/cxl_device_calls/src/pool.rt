//! A pool of frames.

use cxl_media::Pool;

/// How many frames are free, and how many there are.
fn has(pool: &Pool, free: u32, total: u32) -> bool {
    pool.free() == free && pool.total() == total
}

/// Of two frames, each with bytes of its own, a third cannot be taken; both are given back.
fn takes_two(pool: &mut Pool) -> bool {
    let Some(first) = pool.take() else {
        return false;
    };
    let Some(second) = pool.take() else {
        return false;
    };
    pool.bytes_mut(&first)[..5].copy_from_slice(b"first");
    pool.bytes_mut(&second)[..6].copy_from_slice(b"second");
    let kept = &pool.bytes(&first)[..6] == b"first\0".as_slice();
    let apart = &pool.bytes(&second)[..7] == b"second\0".as_slice();
    let full = pool.take().is_none() && has(pool, 0, 2);
    pool.give(first);
    pool.give(second);
    kept && apart && full
}

/// Takes a frame, which is zeroed.
fn takes_zeroed(pool: &mut Pool) -> bool {
    match pool.take() {
        Some(frame) => pool.bytes(&frame) == [0; 256].as_slice(),
        None => false,
    }
}

/// Two that were given back are taken anew, and one that was is zeroed.
#[test]
fn two_frames(rt: HostRuntime) {
    let mut pool = Pool::new(rt.alloc(), 2).expect(&rt, "memory");
    assert!(rt; has(&pool, 2, 2));
    assert!(rt; takes_two(&mut pool) && takes_two(&mut pool));
    assert!(rt; has(&pool, 2, 2));
    assert!(rt; takes_zeroed(&mut pool));
    assert!(rt; has(&pool, 1, 2));
}

#[test]
fn no_frame(rt: HostRuntime) {
    let mut pool = Pool::empty(rt.alloc());
    assert!(rt; pool.take().is_none());
    assert!(rt; has(&pool, 0, 0));
}
