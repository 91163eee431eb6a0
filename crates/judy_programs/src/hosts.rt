//! What `judyd serve` asks of the system: a secret, a file, a socket, and many connections.
ghost use Rattle.std.specs.Prelude.{[], ◌∷◌, MatchOption, MatchBool};
ghost use Rattle.judy_many.specs.Nets.Step.{Bound, Controlled, Drawn, Opened, Shut, Unbound, Uncontrolled, Undrawn, Unopened, Unwatched, Watched};
ghost use Rattle.judy_programs.specs.Asking.{Logs};

use judy_many::Network;
use judy_stream::Source;
use std::alloc::Global;

/// A system with random bytes, with files, and with sockets that connections come to. One log has
/// all that was asked of it, in order.
pub trait Hosts: Network {
    /// A file that is read.
    type File: Source + Drop;

    /// Draws a secret: random bytes that nobody can guess. None if the system gives too few.
    fn secret(&mut self) -> Option<[u8; 16]>
        ensures { MatchOption result
            (Logs (Self.log self.old) (Undrawn ∷ []) (Self.log self.new))
            (λ secret. Logs (Self.log self.old) (Drawn secret ∷ []) (Self.log self.new)) };

    /// Opens the file at a path. None if it cannot be opened.
    fn open(&mut self, path: &str) -> Option<Self::File>
        ensures { MatchOption result
            (Logs (Self.log self.old) (Unopened path.now ∷ []) (Self.log self.new))
            (λ file. Logs (Self.log self.old) (Opened path.now (Self.File.source.left file) ∷ [])
            (Self.log self.new)) };

    /// Closes a file.
    fn shut(&mut self, file: Self::File)
        ensures { Logs (Self.log self.old) (Shut (Self.File.source.left file) ∷ []) (Self.log self.new) };

    /// Makes a socket at a path. Connections come to it from then on. False if it cannot be made.
    fn bind(&mut self, alloc: Global, path: &str) -> bool
        ensures { MatchBool result
            (Logs (Self.log self.old) (Bound path.now ∷ []) (Self.log self.new))
            (Logs (Self.log self.old) (Unbound path.now ∷ []) (Self.log self.new)) };

    /// Makes the status socket at a path, after the other. Questions come to it from then on. False
    /// if it cannot be made.
    fn watch(&mut self, path: &str) -> bool
        ensures { MatchBool result
            (Logs (Self.log self.old) (Watched path.now ∷ []) (Self.log self.new))
            (Logs (Self.log self.old) (Unwatched path.now ∷ []) (Self.log self.new)) };

    /// Makes the control socket at a path, after the others. Commands come to it from then on. False
    /// if it cannot be made.
    fn control(&mut self, path: &str) -> bool
        ensures { MatchBool result
            (Logs (Self.log self.old) (Controlled path.now ∷ []) (Self.log self.new))
            (Logs (Self.log self.old) (Uncontrolled path.now ∷ []) (Self.log self.new)) };
}
