//! What the metaserver means: its state is a `MetaImage`, and each request has its step. The functions
//! here do nothing: their contracts say what the step computes in small runs.
#![tactic(auto)]

ghost use Rattle.std.specs.Prelude.{ℕ, ◌≤◌};
ghost use Rattle.qfs_base.specs.declared.chunk.BlockId.{BlockId};
ghost use Rattle.qfs_base.specs.declared.image.MetaImage.{MetaImage};
ghost use Rattle.qfs_model_meta.specs.GrantedAgain.{DecidesAsFreed};
ghost use Rattle.qfs_model_meta.specs.Past.{no_past};
ghost use Rattle.qfs_model_meta.specs.Sound.{IsSound};
ghost use Rattle.qfs_model_meta.specs.Step.{opening};
ghost use Rattle.qfs_model_meta.specs.WorkedFiles.{PutAndGet, TreeRefusals, Renamed, Replaced};
ghost use Rattle.qfs_model_meta.specs.WorkedForeign.{ForeignHealed};
ghost use Rattle.qfs_model_meta.specs.WorkedRepairs.{Moved, Recovered, Evacuated, Hibernated, Regranted, Dropped, Balanced};
ghost use Rattle.qfs_model_meta.specs.WorkedTerms.{Termed};

/// On nine servers a put of five bytes and a get: the nine slots are granted on the servers 1 to
/// 9 in turn, and the get is told of all of them.
pub fn puts_and_gets()
    ensures { PutAndGet }
{}

/// Each refusal of the name tree comes where its rule says, at its place in the history.
pub fn refuses_in_order()
    ensures { TreeRefusals }
{}

/// A rename moves what stands below, and an unclosed file is its own actor's.
pub fn renames_below()
    ensures { Renamed }
{}

/// A path that is removed and put anew names another file.
pub fn replaces_a_file()
    ensures { Replaced }
{}

/// A copy is moved under a reader, and its old copy is deleted only after the reader's release.
pub fn moves_under_a_reader()
    ensures { Moved }
{}

/// A slot is recovered once its server is down or was emptied.
pub fn recovers_a_slot()
    ensures { Recovered }
{}

/// The slots of a closed file are missing where no record of them is there, as only an image from
/// elsewhere leaves them.
pub fn heals_without_records()
    ensures { ForeignHealed }
{}

/// A server is evacuated where another can take its copies.
pub fn evacuates_a_server()
    ensures { Evacuated }
{}

/// The copies of a server that hibernates aren't missing before its reading of the clock.
pub fn waits_for_sleepers()
    ensures { Hibernated }
{}

/// A slot whose server failed its put is granted on another, as long as there is one.
pub fn grants_again()
    ensures { Regranted }
{}

/// A dropped actor is told so at each request, with the turn before its drop.
pub fn drops_an_actor()
    ensures { Dropped }
{}

/// A server with two copies more than another gives it one.
pub fn evens_the_loads()
    ensures { Balanced }
{}

/// A put's grant in place of one whose server failed is chosen and told as if that one had been
/// condemned before.
pub fn grants_as_freed()
    ensures { (block : BlockId) (slot : ℕ) (m : MetaImage) → DecidesAsFreed block slot m }
{}

/// With a term a lease ends with the tick that brings the clock to its reading. It blocks no
/// deletion then, and the grant that was given under it stays.
pub fn ends_leases_by_term()
    ensures { Termed }
{}

/// A metaserver that starts with nothing keeps to what it told its actors: nothing yet.
pub fn starts_sound(servers: u16)
    requires some { 1 ≤ servers }
    requires few { servers ≤ 64 }
    ensures { IsSound no_past (opening servers) }
{}
