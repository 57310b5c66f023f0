//! Streams that can be let go of before the program ends.
ghost use Rattle.std.specs.Prelude.{◌≡◌, Bool, IsTrue};

use fb_ports::{Sink, Source};

/// A source that a session lets go of when it ends.
pub trait LiveSource: Source {
    /// It was let go of.
    ghost has_hung_up: { Self → Bool };

    /// Lets go of what it reads from. Who writes there is told that nobody reads any more; what is left stays unread.
    fn hang_up(&mut self)
        ensures hung_up { IsTrue (has_hung_up self.new) }
        ensures left { Self.left self.new ≡ Self.left self.old }
        ensures faults { Self.faults self.new ≡ Self.faults self.old };
}

/// A sink that a session lets go of when it ends.
pub trait LiveSink: Sink {
    /// It was let go of.
    ghost has_hung_up: { Self → Bool };

    /// Lets go of what it writes to. Who reads there finds the end behind what was taken.
    fn hang_up(&mut self)
        ensures hung_up { IsTrue (has_hung_up self.new) }
        ensures contents { Self.contents self.new ≡ Self.contents self.old }
        ensures faults { Self.faults self.new ≡ Self.faults self.old };
}
