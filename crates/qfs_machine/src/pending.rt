//! The request that a machine asks next.
#![tactic(auto)]

ghost use Rattle.std.specs.Prelude.{◌≡◌, None};
ghost use Rattle.qfs_machine.specs.Asking.{after_asking};
ghost use Rattle.qfs_machine.specs.declared.machine.Readiness.{Readiness};

use crate::machine::Readiness;
use qfs_base::request::NodeRequest;

/// How a machine stands to its next request, and the request itself from when it is prepared until
/// it is handed out.
#[derive(Drop)]
pub struct Pending {
    pub readiness: Readiness,
    pub request: Option<NodeRequest>,
}

impl Pending {
    /// Nothing is prepared, as at the start and behind each reply. Takes no memory.
    pub fn nothing() -> Pending
        ensures readiness { result.readiness ≡ Readiness.Unready }
        ensures request { result.request ≡ None }
    {
        Pending {
            readiness: Readiness::Unready,
            request: None,
        }
    }

    /// This request is prepared, or that there is none. Takes no memory.
    pub fn ready(request: Option<NodeRequest>) -> Pending
        ensures readiness { result.readiness ≡ Readiness.Ready }
        ensures request { result.request ≡ request }
    {
        Pending {
            readiness: Readiness::Ready,
            request,
        }
    }

    /// Hands the request out, if there is one. Takes no memory.
    pub fn hand_out(&mut self) -> Option<NodeRequest>
        ensures handed { result ≡ self.old.request }
        ensures request { self.new.request ≡ None }
        ensures readiness { self.new.readiness ≡ after_asking result self.old.readiness }
    {
        let request = self.request.take();
        if request.is_some() {
            self.readiness = Readiness::Out;
        }
        request
    }
}
