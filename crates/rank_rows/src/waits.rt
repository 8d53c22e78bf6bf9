//! What threads wait for.
ghost use Rattle.std.specs.Prelude.{◌≡◌, ◌==◌};
ghost use Rattle.mpi_base.specs.Keys.{same_key};
ghost use Rattle.mpi_protocol.specs.Rank.{is_idle as is_idle_so, creates, session_in as session_of_waits, going_on};

use mpi_base::Key;
use mpi_protocol::Waits;

/// Whether a thread that waits for this waits for nothing.
pub(crate) fn is_nothing(waits: &Waits) -> bool
    ensures { result ≡ is_idle_so waits.now }
{
    matches!(waits, Waits::Nothing)
}

/// Whether it is the creation of a key.
pub(crate) fn creates_key(waits: &Waits, key: &Key) -> bool
    ensures { result ≡ creates (λ k session. same_key k key.now) waits.now }
{
    match waits {
        Waits::Creation { key: open, .. } | Waits::Uncoloured { key: open, .. } => {
            open.is_same(key)
        }
        _ => false,
    }
}

/// Whether it is a creation under the communicator with a context.
pub(crate) fn creates_under(waits: &Waits, ctx: u16) -> bool
    ensures { result ≡ creates (λ k session. k.parent == ctx) waits.now }
{
    match waits {
        Waits::Creation { key, .. } | Waits::Uncoloured { key, .. } => key.parent == ctx,
        _ => false,
    }
}

/// Whether it is a creation of a session.
pub(crate) fn creates_of(waits: &Waits, session: u64) -> bool
    ensures { result ≡ creates (λ k s. s == session) waits.now }
{
    match waits {
        Waits::Creation { session: of, .. } | Waits::Uncoloured { session: of, .. } => {
            *of == session
        }
        _ => false,
    }
}

/// The session of the creation; 0 where it is none.
pub(crate) fn session_in(waits: &Waits) -> u64
    ensures { result ≡ session_of_waits waits.now }
{
    match waits {
        Waits::Creation { session, .. } | Waits::Uncoloured { session, .. } => *session,
        _ => 0,
    }
}

/// The creation of a key goes on under the next key, or without a colour.
pub(crate) fn go_on(waits: &mut Waits, key: &Key, next: &Option<Key>)
    ensures { waits.new ≡ going_on key.now next.now waits.old }
{
    if let Waits::Creation {
        key: open,
        target,
        session,
    } = waits
    {
        if open.is_same(key) {
            let target = target.copy();
            let session = *session;
            *waits = match next {
                Some(next) => Waits::Creation {
                    key: next.copy(),
                    target,
                    session,
                },
                None => Waits::Uncoloured {
                    key: key.copy(),
                    target,
                    session,
                },
            };
        }
    }
}
