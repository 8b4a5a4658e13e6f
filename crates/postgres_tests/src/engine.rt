//! The engine in memory: takes, appends that are fenced, and numbers that are taken.

use postgres_model::{Appended, EngineFault, MemEngine};

#[test]
fn a_log_is_taken_and_appended_to(rt: HostRuntime) {
    let mut engine = MemEngine::new(rt.alloc());
    assert_eq!(rt; engine.take(11), Ok(1));
    let group: [&[u8]; 2] = [b"one", b"two"];
    assert_eq!(rt; engine.append(1, 1, &group), Ok(Appended::Inserted(2)));
    assert_eq!(rt; engine.append(1, 2, &group), Ok(Appended::Duplicate));
    assert_eq!(rt; engine.take(12), Ok(2));
    assert_eq!(rt; engine.append(1, 3, &group), Ok(Appended::Inserted(0)));
    assert_eq!(rt; engine.retake(11), Ok(None));
    assert_eq!(rt; engine.retake(12), Ok(Some(3)));
    assert_eq!(rt; engine.append(3, 3, &group), Ok(Appended::Inserted(2)));
    assert_eq!(rt; engine.append(3, u64::MAX, &group), Err(EngineFault::Spent));
    assert_eq!(rt; engine.fetch(4), Some(b"two".as_slice()));
    assert_eq!(rt; engine.fetch(5), None);
}
