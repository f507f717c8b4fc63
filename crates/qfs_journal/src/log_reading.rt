//! Reads the record of a request at the front of bytes.
ghost use Rattle.std.specs.Prelude.{◌≡◌, ◌≤◌, ◌++◌, List, ℕ, Some, length, take, drop, IfOk};
ghost use Rattle.std.specs.Prelude.{IfSome};
ghost use Rattle.std.specs.Option.{option_map};
ghost use Rattle.qfs_spelling.specs.Fronts.{front_of};
ghost use Rattle.qfs_model_disks.specs.LogRecord.{IsLogRecord, fields_at, log_body, log_record};
ghost use Rattle.qfs_model_disks.specs.LogRecord.{log_record_at, numbered_reader, request_at};
ghost use Rattle.qfs_model_disks.specs.LogRecord.{whole_body};
ghost use Rattle.qfs_model_meta.specs.Step.{Logged};

use crate::fields::{
    abandon_at, abort_at, bye_at, close_at, confirm_at, create_at, drop_at, evacuate_at, grant_at,
    heal_at, hello_at, hibernate_at, leave_at, mkdir_at, move_at, open_at, order_at, recover_at,
    release_at, remove_at, rename_at, rmdir_at, swept_at,
};
use qfs_base::numbers::ActorId;
use qfs_base::request::MetaRequest;
use qfs_record::counted_u32_at;
use qfs_spelling::from_one_at;
use std::alloc::{AllocError, Global};

/// A record of the log at the front of some bytes.
#[derive(Drop)]
pub struct LogRead {
    /// Who asked, from 1.
    pub actor: ActorId,
    pub request: MetaRequest,
    /// How many bytes the record takes.
    pub length: usize,
}

/// Reads the record of a request at the front of the input. None says that no front of it is one.
pub fn read_log(alloc: Global, input: &[u8]) -> Result<Option<LogRead>, AllocError>
    ensures read { IfOk result (λ found.
        option_map (λ it. ((it.actor, it.request), drop it.length input.now)) found
        ≡ log_record_at input.now) }
    ensures within { IfOk result (λ found. IfSome found (λ it. it.length ≤ length input.now)) }
    ensures found { IfOk result (λ found. IfSome found (λ it.
        let logged : Logged = (it.actor, it.request) in
        IsLogRecord logged × (take it.length input.now ≡ log_record.text logged))) }
    ensures only { IfOk result (λ found. (logged : Logged) (rest : List ℕ) → IsLogRecord logged →
        input.now ≡ log_record.text logged ++ rest →
        found ≡ Some (record {
          actor = logged.0;
          request = logged.1;
          length = length (log_record.text logged);
        })) }
{
    let Some((body, rest)) = counted_u32_at(input) else {
        return Ok(None);
    };
    let Some((actor, request)) = body_of(alloc, body)? else {
        return Ok(None);
    };
    let length = input.len() - rest.len();
    Ok(Some(LogRead {
        actor,
        request,
        length,
    }))
}

/// Who asked and the request that these bytes spell, with no byte left over.
#[tactic(auto, unfolding(qfs_model_disks::specs::LogRecord::whole_body))]
fn body_of(alloc: Global, bytes: &[u8]) -> Result<Option<(ActorId, MetaRequest)>, AllocError>
    ensures { IfOk result (λ found. found ≡ whole_body (log_body.read bytes.now)) }
{
    let Some((actor, rest)) = from_one_at(bytes) else {
        return Ok(None);
    };
    match request_at(alloc, rest)? {
        Some((request, [])) => Ok(Some((actor, request))),
        _ => Ok(None),
    }
}

/// The request at the front of bytes: its number, and its fields.
#[tactic(auto, unfolding(qfs_model_disks::specs::LogRecord::request_at))]
fn request_at(alloc: Global, bytes: &[u8]) -> Result<Option<(MetaRequest, &[u8])>, AllocError>
    ensures { IfOk result (λ found. front_of found ≡ request_at bytes.now) }
{
    match bytes {
        [kind, fields @ ..] => request_of(alloc, *kind, fields),
        [] => Ok(None),
    }
}

/// The request of this number whose fields are at the front of bytes.
#[tactic(auto, unfolding(qfs_model_disks::specs::LogRecord::fields_at, qfs_model_disks::specs::LogRecord::numbered_reader))]
fn request_of(
    alloc: Global,
    kind: u8,
    bytes: &[u8],
) -> Result<Option<(MetaRequest, &[u8])>, AllocError>
    ensures { IfOk result (λ found. front_of found ≡ fields_at (numbered_reader kind) bytes.now) }
{
    match kind {
        1 => mkdir_at(alloc, bytes),
        2 => rmdir_at(alloc, bytes),
        3 => remove_at(alloc, bytes),
        4 => rename_at(alloc, bytes),
        5 => create_at(alloc, bytes),
        6 => Ok(grant_at(bytes)),
        7 => Ok(close_at(bytes)),
        8 => Ok(abort_at(bytes)),
        9 => open_at(alloc, bytes),
        10 => Ok(release_at(bytes)),
        11 => recover_at(alloc, bytes),
        12 => heal_at(alloc, bytes),
        13 => move_at(alloc, bytes),
        14 => evacuate_at(alloc, bytes),
        15 => Ok(Some((MetaRequest::BalanceNext, bytes))),
        16 => Ok(confirm_at(bytes)),
        17 => Ok(abandon_at(bytes)),
        18 => Ok(order_at(bytes)),
        19 => Ok(swept_at(bytes)),
        20 => hello_at(alloc, bytes),
        21 => Ok(bye_at(bytes)),
        22 => Ok(leave_at(bytes)),
        23 => Ok(hibernate_at(bytes)),
        24 => Ok(Some((MetaRequest::Tick, bytes))),
        25 => Ok(drop_at(bytes)),
        _ => Ok(None),
    }
}

/// No record is the front of another's, so what was written is read again, whatever follows.
pub fn log_records_are_apart()
    ensures { (one other : Logged) (rest after : List ℕ) → IsLogRecord one → IsLogRecord other →
        log_record.text one ++ rest ≡ log_record.text other ++ after →
        (one ≡ other) × (rest ≡ after) }
{}
