//! Laws of what is printed, over the definitions alone: the audit that is made of the metaserver's
//! state and the lives of the servers is that of the world, in which bytes count. Each function
//! here does nothing, and its contract is a law.
#![tactic(auto)]

ghost use Rattle.qfs_laws_text.specs.Agree.{AuditsAgree, PlainTextsAgree};
ghost use Rattle.qfs_laws_text.specs.Agree.{SoundLettersTellLives, SummariesAgree, TextsAgree};

/// In the sound world behind an order, the current copy of a chunk of a closed file is on its
/// server and right exactly where its server is in the life in which the copy was made, up or not.
/// So no device has to be read for an audit.
pub fn letters_tell_lives()
    ensures { SoundLettersTellLives }
{}

/// The summary that is made of the metaserver's state is that of the world, as long as slots are
/// those of the blocks of their files and closed files have all of theirs.
pub fn summaries_agree()
    ensures { SummariesAgree }
{}

/// In a sound world, where slots are those of the blocks of their files and closed files have all
/// of theirs, the audit that is made of the metaserver's state and the lives of the servers is that
/// of the world: line by line, and so is its summary.
pub fn audits_agree()
    ensures { AuditsAgree }
{}

/// What is printed of the replies, of the metaserver's state, of the lives of the servers and of
/// the order is the text of the script and the order: with an audit where the world behind the
/// order is sound and its slots are those of the blocks of their files, and without one in any
/// case.
pub fn texts_agree()
    ensures audited { TextsAgree }
    ensures plain { PlainTextsAgree }
{}
