use crate::post::Post;
use crate::row::Sender;
use mesh_base::{Events, NoMemory};
use mesh_model::Act;
use node_ground::{Port, PortErr};
use std::mem;

/// What takes the acts of a node in a net.
#[derive(Drop)]
pub struct NetPort<'a> {
    pub post: &'a mut Post,
    pub log: &'a mut Events,
    pub sender: Sender,
    /// A vector whose room the bytes of the next act take.
    pub spare: &'a mut Vec<u8>,
}

impl Port for NetPort<'_> {
    ghost use Rattle.mesh_post.specs.Refused.{PortSame};
    ghost use Rattle.mesh_post.specs.Sent.{PortTook, passed_by};
    ghost use Rattle.std.proofs.Common.{refl};

    ghost takes = { PortTook };

    ghost same = { PortSame };

    ghost over = { λ p act. passed_by p.post.now p.sender.place act };

    ghost same_refl = { λ p. record {
      post = refl;
      log = refl;
      kept = record {
        joined = record {
          alloc = refl;
          rows = refl;
          ways = refl;
          lans = refl;
          older = refl;
          choice = refl;
        };
        turns = refl;
        frames = refl;
        puts = refl;
        fresh = refl;
        bytes = refl;
        waits = λ own x. (λ has. has, λ has. has);
      };
      told = refl;
    } };

    #[inline(always)]
    fn blank(&mut self) -> Vec<u8> {
        let none = Vec::new(self.post.alloc);
        let mut blank = mem::replace(self.spare, none);
        blank.clear();
        blank
    }

    fn put(&mut self, act: Act) -> Result<(), PortErr> {
        match act {
            Act::Link { to, reason, bytes } => {
                self.post.put(self.log, self.sender, to, reason, bytes)
            }
            Act::Lan { bytes } => self.post.put_at_gateway(self.log, self.sender, bytes),
            Act::Print(event) => match self.post.print(self.log, event) {
                Ok(()) => Ok(()),
                Err(NoMemory) => Err(PortErr::Memory),
            },
        }
    }
}
