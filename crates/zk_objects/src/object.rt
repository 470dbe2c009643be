ghost use Rattle.std.specs.Prelude.{◌≡◌, ℕ, Some, slice_get};
ghost use Rattle.std.specs.Option.{option_map_or};
ghost use Rattle.zk_base.specs.Limits.{most_players};
ghost use Rattle.zk_model_bus.specs.declared.table.TableOp.TheVariants.{Grant};
ghost use Rattle.zk_objects.specs.Kept.{object_reply, checked, init_reply, answered, target_of, object_of, IsChanged, AreChanged};

use zk_base::MOST_PLAYERS;
use zk_model_bus::{Kind, Need, OopsWhy, TableOp, TableReply};
use zk_player_set::PlayerSet;

/// What is kept of an object.
#[derive(Clone, Copy)]
pub struct Object {
    /// What it is.
    pub kind: Kind,
    /// The players that have permission on it.
    pub granted: PlayerSet,
    /// All may use it.
    pub public: bool,
    /// It is initialised.
    pub ready: bool,
    /// The number of the player, of a thread.
    pub player: u32,
}

/// The tests of a check of this object.
fn object_reply(player: u32, need: Need, object: &Object) -> TableReply
    ensures { result ≡ object_reply player need (Some object.now) }
{
    if !need.is_met_by(object.kind) {
        return TableReply::Oops(OopsWhy::WrongKind);
    }
    if !(object.granted.contains(player) || object.public) {
        return TableReply::Oops(OopsWhy::NotGranted);
    }
    if !(need.is_any() || object.ready) {
        return TableReply::Oops(OopsWhy::NotInit);
    }
    TableReply::Done
}

fn check(objects: &[Object], player: u32, object: Option<u32>, need: Need) -> TableReply
    ensures { result ≡ checked objects.now player object need }
{
    let Some(object) = object else {
        return TableReply::Oops(OopsWhy::NoObject);
    };
    match objects.get(object as usize) {
        Some(object) => object_reply(player, need, object),
        None => TableReply::Oops(OopsWhy::WrongKind),
    }
}

fn init(objects: &[Object], object: u32) -> TableReply
    ensures { result ≡ init_reply (slice_get objects.now object) }
{
    match objects.get(object as usize) {
        Some(object) if object.ready => TableReply::Already,
        _ => TableReply::Done,
    }
}

/// What an operation is answered.
pub fn answer(objects: &[Object], player: u32, op: &TableOp) -> TableReply
    ensures { result ≡ answered objects.now player op.now }
{
    match *op {
        TableOp::Check(object, need) => check(objects, player, object, need),
        TableOp::Init(object) => init(objects, object),
        _ => TableReply::Done,
    }
}

/// The player of a thread's object. `MOST_PLAYERS` where there is none.
fn player_of(objects: &[Object], thread: u32) -> u32
    ensures { result ≡ option_map_or (λ x. x.player) (slice_get objects.now thread) most_players }
{
    match objects.get(thread as usize) {
        Some(object) => object.player,
        None => MOST_PLAYERS,
    }
}

/// The player whose permission an operation changes.
fn target_of(objects: &[Object], player: u32, op: &TableOp) -> u32
    ensures { result ≡ target_of objects.now player op.now }
{
    match *op {
        TableOp::Grant(thread, _) | TableOp::Revoke(thread, _) => player_of(objects, thread),
        _ => player,
    }
}

/// The object that an operation changes.
fn object_of(op: &TableOp) -> Option<u32>
    ensures { result ≡ object_of op.now }
{
    match *op {
        TableOp::Grant(_, object)
        | TableOp::Revoke(_, object)
        | TableOp::Release(object)
        | TableOp::Public(object)
        | TableOp::Init(object) => Some(object),
        _ => None,
    }
}

/// Makes the change of an operation in the object that it changes.
fn change_object(object: &mut Object, target: u32, op: &TableOp)
    ensures { IsChanged target op.now object.old object.new }
{
    match op {
        TableOp::Grant(_, _) => object.granted.insert(target),
        TableOp::Revoke(_, _) | TableOp::Release(_) => object.granted.remove(target),
        TableOp::Public(_) => object.public = true,
        TableOp::Init(_) => object.ready = true,
        TableOp::Check(_, _) | TableOp::EnterUser => {}
    }
}

/// Gives a player permission on an object, as a grant to its thread does.
pub fn grant(objects: &mut Vec<Object>, player: u32, object: u32)
    ensures { (thread : ℕ) → AreChanged player (Grant thread object) objects.old.items objects.new.items }
{
    let at = object as usize;
    if at < objects.len() {
        objects[at].granted.insert(player);
    }
}

/// Makes the change of an operation.
pub fn change(objects: &mut Vec<Object>, player: u32, op: &TableOp)
    ensures { AreChanged (target_of objects.old.items player op.now) op.now objects.old.items objects.new.items }
{
    let target = target_of(objects, player, op);
    let Some(object) = object_of(op) else {
        return;
    };
    let at = object as usize;
    if at < objects.len() {
        change_object(&mut objects[at], target, op);
    }
}
