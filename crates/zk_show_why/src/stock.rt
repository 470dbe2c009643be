ghost use Rattle.std.specs.Prelude.{◌≡◌};
ghost use Rattle.zk_show_why.specs.Left.{after_get, after_get_quit, after_op, after_put, after_put_end, after_put_quit, empty_stock, goes_in, goes_out, held, msgq_left, msgq_of, one_more, stock_from};

use crate::left::{Left, What};
use crate::whereabouts::{Made, made_by};
use zk_base::Entry;
use zk_model_wait::{MsgqOp, MsgqReply};
use zk_trace::Trace;

/// What a message queue holds, and who waits there.
#[derive(Clone, Copy)]
pub struct Stock {
    pub messages: u64,
    /// How many wait for a message.
    pub getters: u64,
    /// How many wait for room.
    pub putters: u64,
    /// Whoever made the last put that was done.
    pub last: Option<Made>,
}

fn empty_stock() -> Stock
    ensures { result ≡ empty_stock }
{
    Stock {
        messages: 0,
        getters: 0,
        putters: 0,
        last: None,
    }
}

fn one_more(count: u64) -> u64
    ensures { result ≡ one_more count }
{
    count.saturating_add(1)
}

// A message goes in: whoever waits for one has it.
fn goes_in(stock: Stock) -> Stock
    ensures { result ≡ goes_in stock }
{
    let mut now = stock;
    if stock.getters == 0 {
        now.messages = one_more(stock.messages);
    } else {
        now.getters = stock.getters.saturating_sub(1);
    }
    now
}

// A message goes out: that of whoever waits for room moves in.
fn goes_out(stock: Stock) -> Stock
    ensures { result ≡ goes_out stock }
{
    let mut now = stock;
    if stock.putters == 0 {
        now.messages = stock.messages.saturating_sub(1);
    } else {
        now.putters = stock.putters.saturating_sub(1);
    }
    now
}

fn after_put(stock: Stock, made: Made, reply: MsgqReply) -> Stock
    ensures { result ≡ after_put stock made reply }
{
    let mut now = stock;
    match reply {
        MsgqReply::Done => {
            now.last = Some(made);
            goes_in(now)
        }
        MsgqReply::Wait => {
            now.putters = one_more(stock.putters);
            now
        }
        _ => stock,
    }
}

fn after_put_end(stock: Stock, made: Made, reply: MsgqReply) -> Stock
    ensures { result ≡ after_put_end stock made reply }
{
    let mut now = stock;
    match reply {
        MsgqReply::Done => {
            now.last = Some(made);
            now
        }
        _ => stock,
    }
}

fn after_put_quit(stock: Stock, made: Made, reply: MsgqReply) -> Stock
    ensures { result ≡ after_put_quit stock made reply }
{
    let mut now = stock;
    match reply {
        MsgqReply::Done => {
            now.last = Some(made);
            now
        }
        MsgqReply::Again => {
            now.putters = stock.putters.saturating_sub(1);
            now
        }
        _ => stock,
    }
}

fn after_get(stock: Stock, reply: MsgqReply) -> Stock
    ensures { result ≡ after_get stock reply }
{
    let mut now = stock;
    match reply {
        MsgqReply::Bytes(_) => goes_out(stock),
        MsgqReply::Wait => {
            now.getters = one_more(stock.getters);
            now
        }
        _ => stock,
    }
}

fn after_get_quit(stock: Stock, reply: MsgqReply) -> Stock
    ensures { result ≡ after_get_quit stock reply }
{
    let mut now = stock;
    match reply {
        MsgqReply::Again => {
            now.getters = stock.getters.saturating_sub(1);
            now
        }
        _ => stock,
    }
}

// What a message queue holds behind an operation that is answered so.
fn after_op(stock: Stock, made: Made, op: MsgqOp, reply: MsgqReply) -> Stock
    ensures { result ≡ after_op stock made op reply }
{
    match op {
        MsgqOp::Put(_, _) => after_put(stock, made, reply),
        MsgqOp::PutFront(_) => after_put(stock, made, reply),
        MsgqOp::PutEnd(_) => after_put_end(stock, made, reply),
        MsgqOp::PutQuit(_) => after_put_quit(stock, made, reply),
        MsgqOp::Get(_) => after_get(stock, reply),
        MsgqOp::GetQuit(_) => after_get_quit(stock, reply),
        MsgqOp::Purge => Stock {
            messages: 0,
            getters: stock.getters,
            putters: 0,
            last: stock.last,
        },
        _ => stock,
    }
}

fn stock_in(history: &[Entry<MsgqOp, MsgqReply>]) -> Stock
    ensures { result ≡ stock_from empty_stock history.now }
{
    let mut stock = empty_stock();
    for entry in history {
        stock = after_op(stock, made_by(entry), entry.op, entry.reply);
    }
    stock
}

fn held(object: u32, stock: Stock, made: Made) -> Left
    ensures { result ≡ held object stock made }
{
    Left {
        what: What::Holds(stock.messages),
        object,
        made,
    }
}

fn msgq_left(object: u32, stock: Stock) -> Option<Left>
    ensures { result ≡ msgq_left object stock }
{
    if stock.messages == 0 {
        return None;
    }
    match stock.last {
        Some(made) => Some(held(object, stock, made)),
        None => None,
    }
}

/// What is left in the message queue of an object.
pub fn msgq_of(trace: &Trace, object: u32) -> Option<Left>
    ensures { result ≡ msgq_of trace.now object }
{
    let history = trace.msgqs.items().get(object as usize)?;
    msgq_left(object, stock_in(history.items()))
}
