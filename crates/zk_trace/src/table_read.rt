ghost use Rattle.std.specs.Prelude.{◌≡◌};
ghost use Rattle.std.specs.Str.{bytes_eq};
ghost use Rattle.zk_trace.specs.Static.{static_row};
ghost use Rattle.zk_trace.specs.Table.{reply_parts};
ghost use Rattle.zk_trace.specs.TableRead.{verb_of, op_behind, op_of, oops_reply, reply_of};

use crate::choosing::first_of;
use crate::look_ups::{checked_of, object_of, thread_of};
use crate::parts::static_row;
use crate::row_words::{bare, one_word, oops_of, two_words};
use crate::set_words::need_of;
use crate::table::{Verb, reply_parts, verb_word};
use zk_model_bus::{TableOp, TableReply};
use zk_scenario::Scenario;
use zk_words::{Words, is_same};

/// All verbs.
const VERBS: [Verb; 7] = [
    Verb::Check,
    Verb::Grant,
    Verb::Revoke,
    Verb::Release,
    Verb::Public,
    Verb::Init,
    Verb::User,
];

/// The operation that some words say.
pub fn op_of(scenario: &Scenario, words: Words<'_>) -> Option<TableOp>
    ensures { result ≡ op_of scenario.now.decls words.entry }
{
    let mut words = words;
    let verb = verb_of(words.next()?)?;
    op_behind(scenario, verb, words)
}

fn verb_of(word: &[u8]) -> Option<Verb>
    ensures { result ≡ verb_of word.now }
{
    VERBS
        .iter()
        .copied()
        .find(|verb| is_same(word, verb_word(*verb)))
}

fn op_behind(scenario: &Scenario, verb: Verb, words: Words<'_>) -> Option<TableOp>
    ensures { result ≡ op_behind scenario.now.decls verb words.entry }
{
    match verb {
        Verb::Check => {
            let (object, need) = two_words(words)?;
            Some(TableOp::Check(checked_of(scenario, object)?, need_of(need)?))
        }
        Verb::Grant => {
            let (thread, object) = two_words(words)?;
            Some(TableOp::Grant(thread_of(scenario, thread)?, object_of(scenario, object)?))
        }
        Verb::Revoke => {
            let (thread, object) = two_words(words)?;
            Some(TableOp::Revoke(thread_of(scenario, thread)?, object_of(scenario, object)?))
        }
        Verb::Release => Some(TableOp::Release(object_of(scenario, one_word(words)?)?)),
        Verb::Public => Some(TableOp::Public(object_of(scenario, one_word(words)?)?)),
        Verb::Init => Some(TableOp::Init(object_of(scenario, one_word(words)?)?)),
        Verb::User => bare(TableOp::EnterUser, words),
    }
}

/// The reply to an operation of a verb that stands behind the sign.
pub fn reply_of(scenario: &Scenario, verb: Verb, row: &[u8]) -> Option<TableReply>
    ensures { result ≡ reply_of scenario.now.decls verb row.now }
{
    match verb {
        Verb::Check => first_of!(is_written, row; TableReply::Done; oops_reply(row)),
        Verb::Init => first_of!(is_written, row; TableReply::Done, TableReply::Already),
        _ => first_of!(is_written, row; TableReply::Done),
    }
}

fn oops_reply(row: &[u8]) -> Option<TableReply>
    ensures { result ≡ oops_reply row.now }
{
    Some(TableReply::Oops(oops_of(row)?))
}

#[inline(always)]
fn is_written(reply: TableReply, row: &[u8]) -> bool
    ensures { result ≡ bytes_eq row.now (static_row (reply_parts reply)) }
{
    is_same(row, static_row(&reply_parts(reply)))
}
