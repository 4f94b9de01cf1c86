//! What a store and a sink promise.
ghost use Rattle.std.specs.Prelude.{◌≡◌, ◌≢◌, ℕ, List, [], ◌≤◌, take, length, Option, IsOk, IsSome, IfOk, IfSome, OnOk, OnErr};
ghost use Rattle.sn_io.specs.Outside.{Rose, Found, followed_by, found_in, found_of};

/// How a file was fetched: its whole content is there, or it is longer than the limit and nothing is there.
#[derive(Clone, Copy, PartialEq, Eq, Debug)]
pub enum Fetched {
    Whole,
    Longer,
}

/// Why a file was not fetched.
#[derive(Clone, Copy, PartialEq, Eq, Debug)]
pub enum StoreFault {
    /// The store lacks the file, or failed.
    Failed,
    /// There was no memory for its content.
    Memory,
}

/// A sink took less than the whole piece.
#[derive(Clone, Copy, PartialEq, Eq, Debug)]
pub struct Failed;

/// Files by name.
///
/// `files` is what the store holds, None where it doesn't tell. A store is `sure` where it can fail only for a name
/// that it lacks, now and in all later calls. `faults` counts its failures and stands at the last value of its type
/// once it has come there. `gave` is what the store says of its own about a fetch: that from this state a fetch of
/// this name came to this and left that state.
pub trait Store {
    ghost files: { Self → Option (List ℕ → Option (List ℕ)) };

    ghost sure: { Self → Type 0 };

    ghost faults: { Self → ℕ };

    ghost gave: { Self → List ℕ → Found → Self → Type 0 };

    /// Puts the content of a file of at most `limit` bytes into `into`, which is empty before.
    fn fetch(&mut self, name: &str, limit: usize, into: &mut Vec<u8>) -> Result<Fetched, StoreFault>
        requires empty { into.old.items ≡ [] }
        ensures gave { result ≢ Err StoreFault.Memory → gave self.old name.now (found_of result into.new.items) self.new }
        ensures files { files self.new ≡ files self.old }
        ensures told { IfSome (files self.old) (λ held. IfOk result (λ _.
            found_of result into.new.items ≡ found_in (held name.now) limit)) }
        ensures sure { sure self.old → sure self.new × IfSome (files self.old) (λ held.
            result ≡ Err StoreFault.Failed → held name.now ≡ None) }
        ensures tells { sure self.old → IsSome (files self.old) }
        ensures later { faults self.old ≤ faults self.new }
        ensures failed { result ≡ Err StoreFault.Failed → Rose (faults self.old) (faults self.new) × (into.new.items ≡ []) }
        ensures longer { result ≡ Ok Fetched.Longer → into.new.items ≡ [] }
        ensures memory { result ≡ Err StoreFault.Memory → (self.new ≡ self.old) × (into.new.items ≡ []) };
}

/// Bytes in order.
///
/// `written` is all that was written, None where the sink doesn't tell. `faults` counts its failures and stands at
/// the last value of its type once it has come there.
pub trait Sink {
    ghost written: { Self → Option (List ℕ) };

    ghost faults: { Self → ℕ };

    /// Appends the piece. Where it fails, some first bytes of the piece may have been appended.
    fn put(&mut self, piece: &[u8]) -> Result<(), Failed>
        ensures whole { OnOk result (written self.new ≡ followed_by (written self.old) piece.now) }
        ensures part { OnErr result
            ((n : ℕ) × (n ≤ length piece.now) × (written self.new ≡ followed_by (written self.old) (take n piece.now))) }
        ensures later { faults self.old ≤ faults self.new }
        ensures cause { OnErr result (Rose (faults self.old) (faults self.new)) }
        ensures empty { length piece.now ≡ 0 → IsOk result × (self.new ≡ self.old) };
}
