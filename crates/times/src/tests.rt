use crate::plain::Plain;
use crate::ranked::Ranked;
use crate::row::Row;
use crate::time::Time;

// A value whose numbers are past the ends means the time that making them gives.
#[test]
fn values_past_the_ends(rt: HostRuntime) {
    let last = Plain { seconds: u32::MAX };
    assert_eq!(rt; last.seconds(), 99_999_999);
    assert_eq!(rt; last.plus(last).seconds(), 99_999_999);
    assert!(rt; last.not_after(Plain::make(99_999_999, 0)));
    let end = Ranked {
        time: Plain {
            seconds: 99_999_999,
        },
        weight: 5,
    };
    assert_eq!(rt; end.weight(), 0);
    assert!(rt; end.not_after(Ranked::make(99_999_999, 0)));
    let heavy = Ranked {
        time: Plain { seconds: 10 },
        weight: u16::MAX,
    };
    assert_eq!(rt; heavy.plus(heavy).weight(), 9_999);
    assert!(rt; heavy.not_after(Ranked::make(10, 9_999)));
}

#[test]
fn rows(rt: HostRuntime) {
    let mut times = [Plain::zero(); 3];
    let mut row = Row::new(&mut times);
    assert!(rt; row.set(2, Plain::make(7, 0)));
    assert!(rt; !row.set(3, Plain::make(9, 0)));
    assert!(rt; row.get(3).is_none());
    assert_eq!(rt; row.len(), 3);
    assert_eq!(rt; times[2].seconds(), 7);
    assert_eq!(rt; times[0].seconds() + times[1].seconds(), 0);
}
