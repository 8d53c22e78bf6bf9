//! Messages and waiting.
ghost use Rattle.std.specs.Prelude.{◌≡◌, Ok};
ghost use Rattle.mpi_law.specs.Local.Refusals.{and_then, good_tag, good_any_tag, good_rank, good_dest, good_source};
ghost use Rattle.mpi_law.specs.Local.Messages.{good_receive, from_nobody, call_send, call_recv, call_irecv, call_wait, call_await};
ghost use Rattle.call_plan.specs.Sources.{source_of, receive_from};

use crate::call::{Around, Call};
use mpi_base::{ErrClass, Name, Payload, Reply, SrcArg};
use mpi_law::{Effect, MOST_TAG, Receiving, Sending};

/// A tag, at most the greatest.
pub(crate) fn checked_tag(tag: u32) -> Result<u16, ErrClass>
    ensures { result ≡ and_then (good_tag tag) (λ q. Ok tag) }
{
    if tag > u32::from(MOST_TAG) {
        return Err(ErrClass::Tag);
    }
    Ok(tag as u16)
}

/// A tag, at most the greatest, or any.
fn checked_any_tag(tag: Option<u32>) -> Result<Option<u16>, ErrClass>
    ensures { result ≡ and_then (good_any_tag tag) (λ q. Ok tag) }
{
    match tag {
        Some(tag) => Ok(Some(checked_tag(tag)?)),
        None => Ok(None),
    }
}

/// A rank of a communicator of a size.
fn checked_rank(size: u16, rank: u32) -> Result<u16, ErrClass>
    ensures { result ≡ and_then (good_rank size rank) (λ q. Ok rank) }
{
    if rank >= u32::from(size) {
        return Err(ErrClass::Rank);
    }
    Ok(rank as u16)
}

/// A rank of a communicator of a size; None for the null process.
fn checked_dest(size: u16, to: Option<u32>) -> Result<Option<u16>, ErrClass>
    ensures { result ≡ and_then (good_dest size to) (λ q. Ok to) }
{
    match to {
        Some(rank) => Ok(Some(checked_rank(size, rank)?)),
        None => Ok(None),
    }
}

/// A rank of a communicator of a size; None for any, and for the null process.
fn checked_source(size: u16, from: SrcArg) -> Result<Option<u16>, ErrClass>
    ensures { result ≡ and_then (good_source size from) (λ q. Ok (source_of from)) }
{
    match from {
        SrcArg::At(rank) => Ok(Some(checked_rank(size, rank)?)),
        SrcArg::Any | SrcArg::Null => Ok(None),
    }
}

/// What is received from the null process.
fn nothing_received() -> Reply
    ensures { result ≡ from_nobody }
{
    let Some(payload) = Payload::new(b"") else {
        unreachable!()
    };
    Reply::Received {
        source: None,
        tag: None,
        payload,
    }
}

impl<A: Around> Call<'_, A> {
    /// Sends a message.
    pub(crate) fn send(
        &self,
        comm: &Name,
        to: Option<u32>,
        tag: u32,
        payload: &Payload,
    ) -> Result<Effect<u16>, ErrClass>
        ensures { result ≡ call_send (A.seen self.now.around.now) self.now.objects.now.local comm.now to tag payload.now }
    {
        let (comm, _) = self.comm_named(comm)?;
        let to = checked_dest(self.around.size(comm), to)?;
        let tag = checked_tag(tag)?;
        let Some(to) = to else {
            return Ok(Effect::Says(Reply::Fine));
        };
        Ok(Effect::Sends(Sending {
            comm,
            to,
            tag,
            payload: payload.copy(),
        }))
    }

    /// A receive on a communicator; None where it is from the null process.
    fn receive(
        &self,
        comm: &Name,
        from: SrcArg,
        tag: Option<u32>,
        room: u32,
    ) -> Result<Option<Receiving<u16>>, ErrClass>
        ensures { result ≡ and_then (good_receive (A.seen self.now.around.now) self.now.objects.now.local comm.now from tag) (λ c. Ok (receive_from c.0 from tag room)) }
    {
        let (comm, _) = self.comm_named(comm)?;
        let source = checked_source(self.around.size(comm), from)?;
        let tag = checked_any_tag(tag)?;
        if from == SrcArg::Null {
            return Ok(None);
        }
        Ok(Some(Receiving {
            comm,
            source,
            tag,
            room,
        }))
    }

    /// Receives a message.
    pub(crate) fn recv(
        &self,
        comm: &Name,
        from: SrcArg,
        tag: Option<u32>,
        room: u32,
    ) -> Result<Effect<u16>, ErrClass>
        ensures { result ≡ call_recv (A.seen self.now.around.now) self.now.objects.now.local comm.now from tag room }
    {
        match self.receive(comm, from, tag, room)? {
            Some(receive) => Ok(Effect::Receives(receive)),
            None => Ok(Effect::Says(nothing_received())),
        }
    }

    /// Posts a receive.
    pub(crate) fn irecv(
        &self,
        comm: &Name,
        from: SrcArg,
        tag: Option<u32>,
        room: u32,
        target: &Name,
    ) -> Result<Effect<u16>, ErrClass>
        ensures { result ≡ call_irecv (A.seen self.now.around.now) self.now.objects.now.local comm.now from tag room target.now }
    {
        let receive = self.receive(comm, from, tag, room)?;
        if self.is_bound(target) {
            return Err(ErrClass::Arg);
        }
        match receive {
            Some(receive) => Ok(Effect::Posts {
                target: target.copy(),
                receive,
            }),
            None => Ok(Effect::NullPosts(target.copy())),
        }
    }

    /// Waits for a request.
    pub(crate) fn wait(&self, request: &Name) -> Result<Effect<u16>, ErrClass>
        ensures { result ≡ call_wait self.now.objects.now.local request.now }
    {
        let number = self.request_named(request)?;
        Ok(Effect::Completes {
            name: request.copy(),
            number,
        })
    }
}
