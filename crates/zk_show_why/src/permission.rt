use crate::people::player_object;
use crate::run::Run;
use zk_line::Declared;
use zk_model_bus::{TableOp, TableReply};
use zk_scenario::Decl;

/// What a player may do with an object, and who took that from it last.
#[derive(Clone, Copy)]
pub struct Permission {
    /// Whether the object is granted to the player, or public.
    pub granted: bool,
    /// The player and the step that took it away, if that was so.
    pub lost: Option<(usize, u32)>,
}

// Whether a line among the declarations allows it.
fn is_allowed(run: &Run<'_>, thread: u32, object: u32) -> bool {
    for line in run.scenario.written() {
        match *line {
            Declared::Allow(at, other) if at == thread && other == object => return true,
            _ => {}
        }
    }
    false
}

/// The permission that a player has on an object at the end of a run.
pub fn permission_of(run: &Run<'_>, player: usize, object: u32) -> Permission {
    let thread = player_object(run.scenario, player).unwrap_or(u32::MAX);
    let mut now = Permission {
        granted: is_allowed(run, thread, object),
        lost: None,
    };
    for entry in run.trace.table.items() {
        if entry.reply != TableReply::Done {
            continue;
        }
        let caller = entry.who.number as usize;
        match entry.op {
            TableOp::Public(other) if other == object => {
                return Permission {
                    granted: true,
                    lost: None,
                };
            }
            TableOp::Grant(to, other) if to == thread && other == object => {
                now.granted = true;
                now.lost = None;
            }
            TableOp::Revoke(from, other) if from == thread && other == object => {
                now.granted = false;
                now.lost = Some((caller, entry.step));
            }
            TableOp::Release(other) if caller == player && other == object => {
                now.granted = false;
                now.lost = Some((caller, entry.step));
            }
            _ => {}
        }
    }
    now
}

/// Whether a player is a user at the end of a run.
pub fn is_user(run: &Run<'_>, player: usize) -> bool {
    if let Some(object) = player_object(run.scenario, player) {
        if let Some(Decl::Thread(_, _, true)) = run.scenario.decls().get(object as usize) {
            return true;
        }
    }
    for entry in run.trace.table.items() {
        if entry.op == TableOp::EnterUser && entry.who.number as usize == player {
            return true;
        }
    }
    false
}
