//! One thread: what a push and a take answer, and when.
use crate::seats::{message_of, one_seat, two_seats};
use std::test::Fail;
use zk_msgsub::{Full, MsgSub, Note};

#[test]
fn full_and_none_say_what_was_so(rt: HostRuntime) -> Result<(), Fail> {
    let (sub, seats, mut taker) = MsgSub::new(rt.alloc(), 1, 1, 3)?;
    let mut seat = one_seat(&sub, seats);
    let (first, second, third) = (message_of(7), message_of(8), message_of(9));
    let none = sub.take(&rt, &mut taker);
    assert!(rt; none.is_none(), "nothing was pushed");
    let pushed = sub.push(&rt, &mut seat, first);
    assert!(rt; pushed == Ok(0));
    let refused = sub.push(&rt, &mut seat, second);
    assert!(rt; refused == Err(Full), "there is room for one note");
    let taken = sub.take(&rt, &mut taker);
    assert!(rt;
        taken
            == Some(Note {
                publisher: 0,
                number: 0,
                message: first
            })
    );
    let none = sub.take(&rt, &mut taker);
    assert!(rt; none.is_none(), "a push that is refused leaves nothing");
    let pushed = sub.push(&rt, &mut seat, third);
    assert!(rt; pushed == Ok(1), "a push that is refused has no number");
    assert!(rt; seat.room() == 0, "but it takes room");
    let left = sub.close(&rt, rt.alloc(), vec![in rt.alloc(); seat]?, taker)?;
    assert!(rt;
        left.as_slice()
            == [Note {
                publisher: 0,
                number: 1,
                message: third
            }]
            .as_slice()
    );
    Ok(())
}

#[test]
fn where_there_is_room_each_push_is_taken(rt: HostRuntime) -> Result<(), Fail> {
    let (sub, seats, taker) = MsgSub::new(rt.alloc(), 4, 2, 3)?;
    let (mut first, mut second) = two_seats(&sub, seats);
    let message = message_of(1);
    let one = sub.push(&rt, &mut first, message);
    let two = sub.push(&rt, &mut second, message);
    let three = sub.push(&rt, &mut second, message);
    let four = sub.push(&rt, &mut first, message);
    assert!(rt;
        (one, two) == (Ok(0), Ok(0)),
        "both might push six notes, and four have room"
    );
    assert!(rt; (three, four) == (Ok(1), Ok(1)));
    let full = sub.push(&rt, &mut second, message);
    assert!(rt; full == Err(Full));
    let left = sub.close(&rt, rt.alloc(), vec![in rt.alloc(); first, second]?, taker)?;
    let mut told = Vec::new(rt.alloc());
    for note in &left {
        told.push((note.publisher, note.number))?;
    }
    assert!(rt; told.as_slice() == [(0, 0), (1, 0), (1, 1), (0, 1)].as_slice());
    Ok(())
}
