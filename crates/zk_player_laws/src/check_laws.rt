ghost use Rattle.zk_player_laws.specs.CheckLaws.{EachUserIsChecked};

/// Of each player whose log follows a scenario, whatever its services show: each check of it is the next one that a
/// user's call has to make, behind one passed check for each earlier need of the call and nothing else of it; each
/// other step of a user's call comes behind all its checks, each passed; and where a failed check, an answer or its
/// mode says that a check has ended the player, that check is its last step, its last answer says why, no earlier one
/// does, and nothing of it is open. It does nothing when it runs.
pub fn users_are_checked()
    ensures followed { EachUserIsChecked }
{}
