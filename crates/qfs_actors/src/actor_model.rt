//! An actor as the definitions have it, which only clauses speak of.

ghost use Rattle.std.specs.Prelude.{◌≡◌, List};
ghost use Rattle.qfs_model_actor.specs.Actor.{starting, after_reply};

use qfs_base::command::Command;
use qfs_base::listing::Listing;
use qfs_base::numbers::ActorId;
use qfs_base::reply::NodeReply;
use qfs_base::rules::Rules;
use qfs_machine::Ghost;
use std::marker::Model;

/// No value of this type is of use: contracts see the plain data of an actor in its place.
pub struct ActorModel {}

impl Model for ActorModel {
    ghost use Rattle.qfs_model_actor.specs.Actor.{Actor};

    ghost Value = { Actor };

    ghost use Rattle.qfs_actors.specs.ActorModel.{nobody};

    ghost view = { λ _. nobody };
}

/// An actor's number and the rules that it goes by.
#[derive(Clone, Copy)]
pub struct Setting {
    pub number: ActorId,
    pub rules: Rules,
}

/// An actor at its first command.
pub fn model_at_start(setting: &Setting, commands: &Listing<Command>) -> Ghost<ActorModel>
    ensures { result.value ≡ starting setting.now.rules setting.now.number commands.now }
{
    Ghost::of(setting, commands)
}

/// The same actor after a node's reply.
pub fn model_after(model: &Ghost<ActorModel>, reply: &NodeReply) -> Ghost<ActorModel>
    ensures { result.value ≡ after_reply model.now.value reply.now }
{
    Ghost::of(model, reply)
}
