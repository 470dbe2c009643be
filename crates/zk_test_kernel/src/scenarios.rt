//! The texts of the scenarios that the tests play. Each stands in a function of its own, since it makes goals slow.
use std::alloc::Global;
use zk_base::NoMemory;

/// All kinds of objects together: a publish whose listener submits, a poll with ticks, a user with two permissions, a drain.
pub fn every() -> &'static [u8] {
    b"zk 1\nthread main 0 super\nthread sensor 3 super\nthread logger 10 user\nqueue sys -1 on\n\
    item report\nmsgq log 4 16\nsem done 0 8\nsignal ready\nlistener onsample\nsub store 16\n\
    chan sample 4 00000000 any onsample store\nallow logger log\nallow logger done\n\
    script main\npoll 30 sig:ready sem:done\ntick 40\ntake done 5\ntick 5\ndrain sys open\ncancelsync report\nbusy report\nend\n\
    script sensor\npublish sample 00000015 forever\nraise ready 7\nsubwait store forever\nput log 736d706c no\ncheck ready\nend\n\
    script logger\nget log forever\ngive done\nend\nscript report\nread sample forever\nend\n\
    script onsample\nsubmit report sys\nend\n"
}

/// A thread that takes what another gives after its first try.
pub fn taken() -> &'static [u8] {
    b"zk 1\nthread taker 0 super\nthread giver 0 super\nsem done 0 2\nscript taker\ntake done forever\nend\n\
    script giver\ngive done\nend\n"
}

/// Two threads that give a semaphore a hundred times each.
pub fn hundred_gives(alloc: Global) -> Result<Vec<u8>, NoMemory> {
    let mut text = Vec::new(alloc);
    text.extend_from_slice(b"zk 1\nthread t0 0 super\nthread t1 0 super\nsem s0 0 200\n")?;
    for thread in [b"script t0\n", b"script t1\n"] {
        text.extend_from_slice(thread)?;
        for _ in 0..100 {
            text.extend_from_slice(b"give s0\n")?;
        }
        text.extend_from_slice(b"end\n")?;
    }
    Ok(text)
}

/// One call, and then as many polls of eight events as make all the steps that a player may make.
pub fn spender(alloc: Global) -> Result<Vec<u8>, NoMemory> {
    let mut text = Vec::new(alloc);
    text.extend_from_slice(b"zk 1\nthread main 0 super\nsem done 0 1\nscript main\ncount done\n")?;
    for _ in 0..2_500 {
        text.extend_from_slice(
            b"poll no sem:done sem:done sem:done sem:done sem:done sem:done sem:done sem:done\n",
        )?;
    }
    text.extend_from_slice(b"end\n")?;
    Ok(text)
}

/// A thread that raises a signal, and one that looks at it; another signal that nobody uses.
pub fn raised() -> &'static [u8] {
    b"zk 1\nthread first 0 super\nthread second 0 super\nsignal ready\nsignal unused\nsem done 0 1\n\
    script first\nraise ready 7\ngive done\nend\nscript second\ncheck ready\nend\n"
}
