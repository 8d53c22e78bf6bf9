//! What the changes of rows say of the names, one by one.
ghost use Rattle.std.specs.Prelude.{◌≡◌, ℕ, List, Some, None, false, IsSome, bytes_eq};
ghost use Rattle.local_law.specs.Names.{Rows, bound_of, bind, rebind, unbind};
ghost use Rattle.local_law.specs.NameFacts.{AreDistinct};
ghost use Rattle.local_law.specs.Objects.{Bound as AnyBound};
ghost use Rattle.bind_tab.specs.Rows.{unbind_session, without};

/// A name that is changed is bound to what was said.
pub fn changed_names_change()
    ensures bind { (rows : Rows (AnyBound ℕ ℕ)) (name : List ℕ) (bound : AnyBound ℕ ℕ) → bound_of rows name ≡ None → bound_of (bind rows name bound) name ≡ Some bound }
    ensures rebind { (rows : Rows (AnyBound ℕ ℕ)) (name : List ℕ) (bound : AnyBound ℕ ℕ) → IsSome (bound_of rows name) → bound_of (rebind rows name bound) name ≡ Some bound }
    ensures unbind { (rows : Rows (AnyBound ℕ ℕ)) (name : List ℕ) → bound_of (unbind rows name) name ≡ None }
{}

/// Every other name stays bound to what it was bound to.
pub fn other_names_stay()
    ensures bind { (rows : Rows (AnyBound ℕ ℕ)) (name other : List ℕ) (bound : AnyBound ℕ ℕ) → bytes_eq name other ≡ false → bound_of (bind rows name bound) other ≡ bound_of rows other }
    ensures rebind { (rows : Rows (AnyBound ℕ ℕ)) (name other : List ℕ) (bound : AnyBound ℕ ℕ) → bytes_eq name other ≡ false → bound_of (rebind rows name bound) other ≡ bound_of rows other }
    ensures unbind { (rows : Rows (AnyBound ℕ ℕ)) (name other : List ℕ) → bytes_eq name other ≡ false → bound_of (unbind rows name) other ≡ bound_of rows other }
{}

/// At the end of a session a name that is bound to it, or to what is of it, is bound no longer; every
/// other name stays.
pub fn session_ends()
    ensures { (rows : Rows (AnyBound ℕ ℕ)) (session : ℕ) (name : List ℕ) → AreDistinct rows → bound_of (unbind_session rows session) name ≡ without session (bound_of rows name) }
{}
