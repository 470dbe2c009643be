ghost use Rattle.zk_player_laws.specs.StackLaws.{EachScriptIsEntered};
ghost use Rattle.zk_player_laws.specs.StackLogs.{EachLogEntersItsScripts};

/// Of each player of a valid scenario, whatever else comes to its channels meanwhile: it enters each script that it is to
/// enter, since it has never more than 18 open; and so did each player whose log follows the scenario, where the histories of
/// the channels are legal. It does nothing when it runs.
pub fn scripts_are_entered()
    ensures playing { EachScriptIsEntered }
    ensures logged { EachLogEntersItsScripts }
{}
