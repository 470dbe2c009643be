ghost use Rattle.zk_trace.specs.Chan as chan_words;
ghost use Rattle.zk_trace.specs.ChanRead as chan_reading;
ghost use Rattle.zk_trace.specs.Clock as clock_words;
ghost use Rattle.zk_trace.specs.ClockRead as clock_reading;
ghost use Rattle.zk_trace.specs.Msgq as msgq_words;
ghost use Rattle.zk_trace.specs.MsgqRead as msgq_reading;
ghost use Rattle.zk_trace.specs.Obs as obs_words;
ghost use Rattle.zk_trace.specs.ObsRead as obs_reading;
ghost use Rattle.zk_trace.specs.Sem as sem_words;
ghost use Rattle.zk_trace.specs.SemRead as sem_reading;
ghost use Rattle.zk_trace.specs.Signal as signal_words;
ghost use Rattle.zk_trace.specs.SignalRead as signal_reading;
ghost use Rattle.zk_trace.specs.Table as table_words;
ghost use Rattle.zk_trace.specs.TableRead as table_reading;
ghost use Rattle.zk_trace.specs.Work as work_words;
ghost use Rattle.zk_trace.specs.WorkRead as work_reading;

use crate::entry_read::Asked;
use crate::{
    chan, chan_read, clock, clock_read, msgq, msgq_read, obs, obs_read, sem, sem_read, signal,
    signal_read, table, table_read, work, work_read,
};
use std::alloc::Global;
use zk_base::NoMemory;
use zk_model_bus::{ChanOp, ChanReply, ObsOp, ObsReply, TableOp, TableReply};
use zk_model_wait::{
    ClockOp, ClockReply, MsgqOp, MsgqReply, SemOp, SemReply, SignalOp, SignalReply,
};
use zk_model_work::{WorkOp, WorkReply};
use zk_scenario::Scenario;
use zk_words::Words;

impl Asked for WorkOp {
    type Reply = WorkReply;

    ghost op_of = { work_reading.op_of };

    ghost reply_of = { λ decls op. work_reading.reply_of decls (work_words.said_of op).0 };

    fn op_of(scenario: &Scenario, words: Words<'_>) -> Option<WorkOp> {
        work_read::op_of(scenario, words)
    }

    fn reply_of(
        &self,
        alloc: Global,
        scenario: &Scenario,
        row: &[u8],
    ) -> Result<Option<WorkReply>, NoMemory> {
        let (verb, _) = work::said_of(*self);
        work_read::reply_of(alloc, scenario, verb, row)
    }
}

impl Asked for ClockOp {
    type Reply = ClockReply;

    ghost op_of = { clock_reading.op_of };

    ghost reply_of = { λ decls op. clock_reading.reply_of decls (clock_words.said_of op).0 };

    fn op_of(scenario: &Scenario, words: Words<'_>) -> Option<ClockOp> {
        clock_read::op_of(scenario, words)
    }

    fn reply_of(
        &self,
        _alloc: Global,
        scenario: &Scenario,
        row: &[u8],
    ) -> Result<Option<ClockReply>, NoMemory> {
        let (verb, _) = clock::said_of(*self);
        Ok(clock_read::reply_of(scenario, verb, row))
    }
}

impl Asked for TableOp {
    type Reply = TableReply;

    ghost op_of = { table_reading.op_of };

    ghost reply_of = { λ decls op. table_reading.reply_of decls (table_words.said_of op).0 };

    fn op_of(scenario: &Scenario, words: Words<'_>) -> Option<TableOp> {
        table_read::op_of(scenario, words)
    }

    fn reply_of(
        &self,
        _alloc: Global,
        scenario: &Scenario,
        row: &[u8],
    ) -> Result<Option<TableReply>, NoMemory> {
        let (verb, _) = table::said_of(*self);
        Ok(table_read::reply_of(scenario, verb, row))
    }
}

impl Asked for SemOp {
    type Reply = SemReply;

    ghost op_of = { sem_reading.op_of };

    ghost reply_of = { λ decls op. sem_reading.reply_of decls (sem_words.said_of op).0 };

    fn op_of(scenario: &Scenario, words: Words<'_>) -> Option<SemOp> {
        sem_read::op_of(scenario, words)
    }

    fn reply_of(
        &self,
        _alloc: Global,
        scenario: &Scenario,
        row: &[u8],
    ) -> Result<Option<SemReply>, NoMemory> {
        let (verb, _) = sem::said_of(*self);
        Ok(sem_read::reply_of(scenario, verb, row))
    }
}

impl Asked for MsgqOp {
    type Reply = MsgqReply;

    ghost op_of = { msgq_reading.op_of };

    ghost reply_of = { λ decls op. msgq_reading.reply_of decls (msgq_words.said_of op).0 };

    fn op_of(scenario: &Scenario, words: Words<'_>) -> Option<MsgqOp> {
        msgq_read::op_of(scenario, words)
    }

    fn reply_of(
        &self,
        _alloc: Global,
        scenario: &Scenario,
        row: &[u8],
    ) -> Result<Option<MsgqReply>, NoMemory> {
        let (verb, _) = msgq::said_of(self);
        Ok(msgq_read::reply_of(scenario, verb, row))
    }
}

impl Asked for SignalOp {
    type Reply = SignalReply;

    ghost op_of = { signal_reading.op_of };

    ghost reply_of = { λ decls op. signal_reading.reply_of decls (signal_words.said_of op).0 };

    fn op_of(scenario: &Scenario, words: Words<'_>) -> Option<SignalOp> {
        signal_read::op_of(scenario, words)
    }

    fn reply_of(
        &self,
        _alloc: Global,
        scenario: &Scenario,
        row: &[u8],
    ) -> Result<Option<SignalReply>, NoMemory> {
        let (verb, _) = signal::said_of(*self);
        Ok(signal_read::reply_of(scenario, verb, row))
    }
}

impl Asked for ChanOp {
    type Reply = ChanReply;

    ghost op_of = { chan_reading.op_of };

    ghost reply_of = { λ decls op. chan_reading.reply_of decls (chan_words.said_of op).0 };

    fn op_of(scenario: &Scenario, words: Words<'_>) -> Option<ChanOp> {
        chan_read::op_of(scenario, words)
    }

    fn reply_of(
        &self,
        _alloc: Global,
        scenario: &Scenario,
        row: &[u8],
    ) -> Result<Option<ChanReply>, NoMemory> {
        let (verb, _) = chan::said_of(self);
        Ok(chan_read::reply_of(scenario, verb, row))
    }
}

impl Asked for ObsOp {
    type Reply = ObsReply;

    ghost op_of = { obs_reading.op_of };

    ghost reply_of = { λ decls op. obs_reading.reply_of decls (obs_words.said_of op).0 };

    fn op_of(scenario: &Scenario, words: Words<'_>) -> Option<ObsOp> {
        obs_read::op_of(scenario, words)
    }

    fn reply_of(
        &self,
        _alloc: Global,
        scenario: &Scenario,
        row: &[u8],
    ) -> Result<Option<ObsReply>, NoMemory> {
        let (verb, _) = obs::said_of(*self);
        Ok(obs_read::reply_of(scenario, verb, row))
    }
}
