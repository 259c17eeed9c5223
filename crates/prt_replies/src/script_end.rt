ghost use Rattle.std.specs.Prelude.{◌≡◌, Some};
ghost use Rattle.prt_replies.specs.ScriptEnd.{fault_after, refused_after};

use crate::reply::Reply;
use prt_refusals::Refusal;

/// How a session ended.
#[derive(Clone, Copy)]
pub struct ScriptEnd {
    /// Whether a line was refused for another reason than a fault.
    pub refused: bool,
    /// The last fault: of the store, the publication, the reader or the writer.
    pub fault: Option<Refusal>,
}

impl ScriptEnd {
    /// No reply yet.
    pub const OPENING: ScriptEnd = ScriptEnd {
        refused: false,
        fault: None,
    };

    /// Takes in one more reply.
    pub fn with_reply(self, reply: &Reply) -> ScriptEnd
        ensures refused { result.refused ≡ refused_after self.refused reply.now }
        ensures fault { result.fault ≡ fault_after self.fault reply.now }
    {
        match reply {
            Reply::Refused(refusal) => match refusal {
                Refusal::StoreFailed(_)
                | Refusal::NotPublished
                | Refusal::ReadFault
                | Refusal::WriteFault => ScriptEnd {
                    refused: self.refused,
                    fault: Some(*refusal),
                },
                _ => ScriptEnd {
                    refused: true,
                    fault: self.fault,
                },
            },
            _ => self,
        }
    }

    /// Takes in a fault of the writer, in the place of any fault before it.
    pub fn with_write_fault(self) -> ScriptEnd
        ensures refused { result.refused ≡ self.refused }
        ensures fault { result.fault ≡ Some Refusal.WriteFault }
    {
        ScriptEnd {
            refused: self.refused,
            fault: Some(Refusal::WriteFault),
        }
    }
}
