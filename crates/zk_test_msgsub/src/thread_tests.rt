//! Two publishers on threads, and two subscribers that are taken off the list and put back meanwhile.
use crate::parts::ROUNDS;
use crate::playing::{Outcome, play_two};
use std::alloc::Global;
use std::test::Fail;
use zk_base::{Entry, Few, NoMemory};
use zk_msgsub::{FanOp, FanReply, Note, Sent};

/// How often the test is played.
const TIMES: u32 = 20;

/// Whom the opens of this player told of, one list for each, in order.
fn opened_by(
    alloc: Global,
    history: &[Entry<FanOp, FanReply>],
    player: u32,
) -> Result<Vec<Few>, NoMemory> {
    let mut lists = Vec::new(alloc);
    for entry in history {
        if let (true, Some(listed)) = (entry.who.number == player, entry.reply.subs()) {
            lists.push(listed)?;
        }
    }
    Ok(lists)
}

fn is_in(list: &Few, number: u32) -> bool {
    list.numbers().contains(&number)
}

/// Whether each send pushed to just the members of the list of its own open, and found none full.
fn reached_just_those(lists: &[Few], sent: &[Sent]) -> bool {
    lists.len() == ROUNDS as usize
        && lists.len() == sent.len()
        && lists.iter().zip(sent).all(|(list, sent)| sent.pushed == *list
            && sent.full.numbers().is_empty())
}

/// The bytes of the messages of this publisher that are listed in `notes`, where they are numbered 0, 1 and on.
fn messages_of(alloc: Global, notes: &[Note], publisher: u32) -> Result<Option<Vec<u8>>, NoMemory> {
    let mut messages = Vec::new(alloc);
    for note in notes {
        if note.publisher == publisher {
            match note.message.bytes() {
                [byte] if note.number as usize == messages.len() => messages.push(*byte)?,
                _ => return Ok(None),
            }
        }
    }
    Ok(Some(messages))
}

/// The messages whose open listed this subscriber.
fn wanted(alloc: Global, lists: &[Few], subscriber: u32) -> Result<Option<Vec<u8>>, NoMemory> {
    let mut messages = Vec::new(alloc);
    for (number, list) in lists.iter().enumerate() {
        if is_in(list, subscriber) {
            messages.push((number % 256) as u8)?;
        }
    }
    Ok(Some(messages))
}

/// Each send reaches just those that its open listed, each of them gets each of those messages once and in order, and who
/// alone changes a subscriber knows when it is listed.
#[test]
fn subscribers_come_and_go_while_two_publish(rt: HostRuntime) -> Result<(), Fail> {
    let alloc = rt.alloc();
    for _ in 0..TIMES {
        let Outcome {
            history,
            sent,
            notes,
        } = play_two(&rt, alloc, 2 * ROUNDS)?;
        assert!(rt; history.len() == 4 * ROUNDS as usize);
        let one = opened_by(alloc, &history, 0)?;
        let other = opened_by(alloc, &history, 1)?;
        assert!(rt; reached_just_those(&one, &sent.0));
        assert!(rt; reached_just_those(&other, &sent.1));
        assert!(rt; messages_of(alloc, &notes.0, 0)? == wanted(alloc, &one, 0)?);
        assert!(rt; messages_of(alloc, &notes.0, 1)? == wanted(alloc, &other, 0)?);
        assert!(rt; messages_of(alloc, &notes.1, 0)? == wanted(alloc, &one, 1)?);
        assert!(rt; messages_of(alloc, &notes.1, 1)? == wanted(alloc, &other, 1)?);
        let alternate = one
            .iter()
            .enumerate()
            .all(|(number, list)| is_in(list, 0) == (number % 2 == 0));
        assert!(rt;
            alternate,
            "publisher 0 has subscriber 0 in its even rounds"
        );
    }
    Ok(())
}
