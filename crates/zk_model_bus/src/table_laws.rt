ghost use Rattle.zk_model_bus.specs.TableLaws.{OfEachTable, NoObjectExactly, WrongKindFirst, GrantStands, PublicForGood, NoneWithoutAGrant, ReadyForGood, NoneBeforeInit, InitDoneOnce, IsAnswered, DeadMakesNoEntry, UsersAreChecked, UserForGood, LivingMay, KeepsTableLaws};

/// Of every legal history of the object table: a thread may use what the last grant, revoke or release of it says, and what is
/// public; nobody else may.
pub fn grants_stand()
    ensures stands { OfEachTable GrantStands }
    ensures public { OfEachTable PublicForGood }
    ensures none { OfEachTable NoneWithoutAGrant }
{}

/// Of every legal history of the object table: an object is initialised once and for good, and none is used before.
pub fn ready_for_good()
    ensures ready { OfEachTable ReadyForGood }
    ensures before { OfEachTable NoneBeforeInit }
    ensures once { OfEachTable InitDoneOnce }
{}

/// Of every legal history of the object table: which test a check fails, and what the other operations are answered.
pub fn checks_are_told()
    ensures no_object { OfEachTable NoObjectExactly }
    ensures wrong_kind { OfEachTable WrongKindFirst }
    ensures answered { OfEachTable IsAnswered }
{}

/// Of every legal history of the object table: no entry of a player comes after its oops, and nobody else's oops stops it.
pub fn oops_is_last()
    ensures dead { OfEachTable DeadMakesNoEntry }
    ensures living { OfEachTable LivingMay }
{}

/// Of every legal history of the object table: users alone are checked, and a user never does what is for supervisors.
pub fn user_for_good()
    ensures checked { OfEachTable UsersAreChecked }
    ensures user { OfEachTable UserForGood }
{}

/// All of it, of every legal history of the object table. It does nothing when it runs.
pub fn keeps_table_laws()
    ensures { OfEachTable KeepsTableLaws }
{
    grants_stand();
    ready_for_good();
    checks_are_told();
    oops_is_last();
    user_for_good();
}
