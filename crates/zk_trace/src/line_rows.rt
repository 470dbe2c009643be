ghost use Rattle.zk_trace.specs.AnswerRead.{answered_of};
ghost use Rattle.zk_trace.specs.LookRead.{says_item_look, says_signal_look};

use crate::answer_read::answered_of;
use crate::hints::Hints;
use crate::look_read::{says_item_look, says_signal_look};
use crate::looks::{ItemLook, SignalLook};
use crate::rows_read::Row;
use std::alloc::Global;
use zk_base::NoMemory;
use zk_scenario::Scenario;
use zk_worker::Answered;

impl Row for ItemLook {
    ghost says = { says_item_look };

    fn of_line(
        _alloc: Global,
        scenario: &Scenario,
        hints: &Hints,
        last: Option<&ItemLook>,
        line: &[u8],
    ) -> Result<Option<ItemLook>, NoMemory> {
        Ok(says_item_look(scenario, hints, last.copied(), line))
    }
}

impl Row for SignalLook {
    ghost says = { says_signal_look };

    fn of_line(
        _alloc: Global,
        scenario: &Scenario,
        hints: &Hints,
        last: Option<&SignalLook>,
        line: &[u8],
    ) -> Result<Option<SignalLook>, NoMemory> {
        Ok(says_signal_look(scenario, hints, last.copied(), line))
    }
}

impl Row for Answered {
    ghost says = { λ decls last row. answered_of decls row };

    fn of_line(
        _alloc: Global,
        scenario: &Scenario,
        _hints: &Hints,
        _last: Option<&Answered>,
        line: &[u8],
    ) -> Result<Option<Answered>, NoMemory> {
        Ok(answered_of(scenario, line))
    }
}
