//! A chunk server together with its device.
ghost use Rattle.std.specs.Prelude.{◌≡◌, ◌+◌, [], None, Some, is_some};
ghost use Rattle.std.specs.Option.{ForSome};
ghost use Rattle.qfs_base.specs.Shape.{IsStripe};
ghost use Rattle.qfs_base.specs.Key.{key_cmp};
ghost use Rattle.qfs_base.specs.KeyMap.{value_at};
ghost use Rattle.qfs_device.specs.Held.{new_device};
ghost use Rattle.qfs_model_server.specs.Server.{fresh_server, refuse, room_of};
ghost use Rattle.qfs_store.specs.Known.{refusal, unless_away, reaches};
ghost use Rattle.qfs_store.specs.Serves.{IsBuilt, IsAllowed, IsDone, IsWhole, Serves};
ghost use Rattle.qfs_store.specs.Stored.{no_copies, stopped, StandsOn};

use crate::copies::Copies;
use crate::requests::{erase, fetch, inventory, put, start, wipe};
use qfs_base::chunk::ChunkKey;
use qfs_base::lists::Bytes;
use qfs_base::numbers::Life;
use qfs_base::reply::{ChunkAnswer, ChunkReply};
use qfs_base::request::ChunkRequest;
use qfs_device::ChunkDevice;
use std::alloc::Global;
use std::marker::Model;

/// A chunk server and the device that it keeps its copies on. As far as the device tells what it
/// holds, there is a server of the definitions that the two stand for, or the server is stopped and
/// has not looked for its copies yet.
#[derive(Drop)]
pub struct Store<D: ChunkDevice> {
    alloc: Global,
    device: D,
    /// The stripe of the layout, in bytes.
    stripe: u32,
    up: bool,
    /// The version in which it writes chunk records: 1 or 2.
    form: u8,
    copies: Copies,
}

impl<D: ChunkDevice> Model for Store<D> {
    ghost use Rattle.qfs_store.specs.Stored.{Stored};

    ghost Value = { Stored };

    ghost view = { λ s. record {
      stripe = s.stripe;
      known = record { up = s.up; form = s.form; copies = s.copies };
      told = D.told s.device;
      faults = D.faults s.device;
    } };

    ghost use Rattle.qfs_store.specs.Stored.{IsSound};

    ghost invariant = { λ s. IsSound (record {
      stripe = s.stripe;
      known = record { up = s.up; form = s.form; copies = s.copies };
      told = D.told s.device;
      faults = D.faults s.device;
    }) };
}

impl<D: ChunkDevice> Store<D> {
    /// A server that is up and has no copies, over a device that holds none. `stripe` is that of the
    /// layout, in bytes. Over a new device it stands for the server that every run begins with. It
    /// takes no memory.
    pub fn new(alloc: Global, device: D, stripe: u32) -> Store<D>
        requires stripe { IsStripe stripe }
        requires empty { ForSome (D.told device) (λ held. held.contents ≡ []) }
        ensures stripe { result.stripe ≡ stripe }
        ensures known { result.known ≡ no_copies }
        ensures told { result.told ≡ D.told device }
        ensures faults { result.faults ≡ D.faults device }
        ensures fresh { result.told ≡ Some new_device
            → StandsOn stripe new_device result.known fresh_server }
    {
        Store {
            alloc,
            device,
            stripe,
            up: true,
            form: 1,
            copies: Copies::new(alloc),
        }
    }

    /// A stopped server that knows of no copies, over a device that may hold anything. Once a Start
    /// is answered Started, its copies are those that stand on the device. It takes no memory.
    pub fn adopt(alloc: Global, device: D, stripe: u32) -> Store<D>
        requires { IsStripe stripe }
        ensures stripe { result.stripe ≡ stripe }
        ensures known { result.known ≡ stopped }
        ensures told { result.told ≡ D.told device }
        ensures faults { result.faults ≡ D.faults device }
    {
        Store {
            alloc,
            device,
            stripe,
            up: false,
            form: 1,
            copies: Copies::new(alloc),
        }
    }

    /// Serves a request. A refusal comes exactly where it is due: Down where the server isn't up,
    /// Lost where its life isn't the asked one, Held where that copy is there, Absent where it isn't
    /// or the range runs past its end; then nothing changes. Else the request is carried out, or
    /// answered NoMemory or Fault. A Fetch hands its room back; every other room is empty.
    ///
    /// As far as the two stand for a server of the definitions, they take its step. Over any device
    /// the answer is one that the request may have, the room has the asked length, and the count of
    /// faults rises by one where it is Fault, and stays where it isn't.
    pub fn serve(&mut self, request: ChunkRequest) -> ChunkReply
        requires { IsBuilt request }
        ensures { Serves request result self.old self.new }
    {
        let now = self.device.life();
        match self.refusal(now, &request) {
            Some(answer) => ChunkReply {
                answer,
                room: room_of(self.alloc, request),
            },
            None => self.carry_out(request),
        }
    }

    /// Hands the device back, as it is.
    pub fn into_device(self) -> D
        ensures told { D.told result ≡ self.told }
        ensures faults { D.faults result ≡ self.faults }
    {
        let Store { device, .. } = self;
        device
    }

    /// The refusal that is due in the life `now`, if one is.
    fn refusal(&self, now: Life, request: &ChunkRequest) -> Option<ChunkAnswer>
        ensures { result ≡ refusal self.now.known now request.now }
    {
        match request {
            ChunkRequest::Put { key, life, .. } => {
                self.unless_away(now, *life, self.copies.contains(key), ChunkAnswer::Held)
            }
            ChunkRequest::Fetch {
                key,
                life,
                from,
                room,
            } => {
                let is_past = !self.has_range(key, *from, room.len());
                self.unless_away(now, *life, is_past, ChunkAnswer::Absent)
            }
            ChunkRequest::Erase { key, life } => {
                let is_absent = !self.copies.contains(key);
                self.unless_away(now, *life, is_absent, ChunkAnswer::Absent)
            }
            ChunkRequest::Stop | ChunkRequest::Start | ChunkRequest::Wipe => None,
            ChunkRequest::Inventory | ChunkRequest::Upgrade => {
                refuse(!self.up, ChunkAnswer::Down)
            }
        }
    }

    /// Down where the server isn't up, Lost where it is in another life than the one that was asked
    /// for, and then this answer where `is_due`.
    fn unless_away(
        &self,
        now: Life,
        life: Life,
        is_due: bool,
        answer: ChunkAnswer,
    ) -> Option<ChunkAnswer>
        ensures { result ≡ unless_away self.now.known now life (refuse is_due answer None) }
    {
        if !self.up {
            return Some(ChunkAnswer::Down);
        }
        if life != now {
            return Some(ChunkAnswer::Lost { asked: life, now });
        }
        refuse(is_due, answer)
    }

    /// Whether so many bytes from `from` on lie in a copy that is there.
    fn has_range(&self, key: &ChunkKey, from: u32, count: usize) -> bool
        ensures { result ≡ reaches (from + count) (value_at key_cmp self.now.known.copies key.now) }
    {
        match self.copies.get(key) {
            Some(size) => {
                let len = size.len as usize;
                count <= len && from as usize <= len - count
            }
            None => false,
        }
    }

    /// Does what a request asks for that isn't refused.
    fn carry_out(&mut self, request: ChunkRequest) -> ChunkReply
        requires built { IsBuilt request }
        requires due { IsAllowed request self.old }
        ensures done { IsDone request result self.old self.new }
        ensures tells { is_some self.new.told ≡ is_some self.old.told }
    {
        let none = Bytes::new(self.alloc);
        match request {
            ChunkRequest::Put {
                key,
                life: _,
                bytes,
            } => ChunkReply {
                answer: put(
                    self.alloc,
                    &mut self.device,
                    &mut self.copies,
                    key,
                    &bytes,
                    self.form,
                    self.stripe,
                ),
                room: none,
            },
            ChunkRequest::Fetch {
                key,
                life: _,
                from,
                room,
            } => match self.copies.get(&key) {
                Some(size) => fetch(&mut self.device, key, size, from, room),
                None => unreachable!(),
            },
            ChunkRequest::Erase { key, life: _ } => ChunkReply {
                answer: erase(&mut self.device, &mut self.copies, key),
                room: none,
            },
            ChunkRequest::Stop
            | ChunkRequest::Start
            | ChunkRequest::Wipe
            | ChunkRequest::Inventory
            | ChunkRequest::Upgrade => self.carry_out_whole(request),
        }
    }

    /// Does what a request asks for that names no key and isn't refused.
    fn carry_out_whole(&mut self, request: ChunkRequest) -> ChunkReply
        requires whole { IsWhole request }
        requires due { IsAllowed request self.old }
        ensures done { IsDone request result self.old self.new }
        ensures tells { is_some self.new.told ≡ is_some self.old.told }
    {
        let none = Bytes::new(self.alloc);
        match request {
            ChunkRequest::Stop => {
                self.up = false;
                ChunkReply {
                    answer: ChunkAnswer::Stopped,
                    room: none,
                }
            }
            ChunkRequest::Start => ChunkReply {
                answer: start(
                    self.alloc,
                    &mut self.device,
                    self.stripe,
                    &mut self.up,
                    &mut self.copies,
                ),
                room: none,
            },
            ChunkRequest::Wipe => ChunkReply {
                answer: wipe(&mut self.device, &mut self.copies),
                room: none,
            },
            ChunkRequest::Inventory => ChunkReply {
                answer: inventory(self.alloc, &self.device, &self.copies),
                room: none,
            },
            ChunkRequest::Upgrade => {
                self.form = 2;
                ChunkReply {
                    answer: ChunkAnswer::Upgraded,
                    room: none,
                }
            }
            ChunkRequest::Put { .. } | ChunkRequest::Fetch { .. } | ChunkRequest::Erase { .. } => {
                unreachable!()
            }
        }
    }
}

/// The answer where the test holds.
fn refuse(test: bool, answer: ChunkAnswer) -> Option<ChunkAnswer>
    ensures { result ≡ refuse test answer None }
{
    if test { Some(answer) } else { None }
}

/// The room that a request hands over, which comes back with the answer.
#[tactic(auto, unfolding(qfs_model_server::specs::Server::room_of))]
fn room_of(alloc: Global, request: ChunkRequest) -> Bytes
    ensures { result ≡ room_of request }
{
    match request {
        ChunkRequest::Fetch { room, .. } => room,
        _ => Bytes::new(alloc),
    }
}
