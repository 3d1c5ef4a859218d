//! The board that the two legs of a connection and the drain controller share.

ghost use Rattle.std.specs.Prelude.{◌≡◌};
ghost use Rattle.proxy_links.specs.Board.{Half, Looks};

/// What a leg is told at a look.
#[derive(Clone, Copy, Debug, PartialEq, Eq)]
pub enum Look {
    /// Go on.
    Go,
    /// Stop here, between two messages: the session is to be moved.
    Park,
    /// The other leg has ended.
    Over,
}

/// The request leg's half of the board. It counts its looks, those that told Park, and those that told Over.
/// No contract says when a board tells what.
pub trait FrontMarks {
    ghost half: { Self → Half };

    /// Asks the board, where so many Query and Sync were forwarded.
    fn look(&mut self, qs: u64) -> Look
        ensures { Looks result (half self.old) (half self.new) };

    /// Says that the client has ended, where so many Query and Sync were forwarded.
    fn finish(&mut self, qs: u64)
        ensures { half self.new ≡ half self.old };

    /// Says that this leg met a fault.
    fn abort(&mut self)
        ensures { half self.new ≡ half self.old };
}

/// The response leg's half of the board. It counts as the other half does.
pub trait BackMarks {
    ghost half: { Self → Half };

    /// Asks the board, where so many ReadyForQuery were passed on.
    fn look(&mut self, zs: u64) -> Look
        ensures { Looks result (half self.old) (half self.new) };

    /// Says that this leg met a fault.
    fn abort(&mut self)
        ensures { half self.new ≡ half self.old };
}

/// The board, which lends its halves. It tells their counts while they are home.
pub trait Marks {
    type Front: FrontMarks + Send + Drop;

    type Back: BackMarks + Send + Drop;

    ghost front: { Self → Half };

    ghost back: { Self → Half };

    // whether both halves are home
    ghost home: { Self → Type 0 };

    /// Lends the halves, and forgets an earlier ring. It takes no memory.
    fn ends(&mut self) -> (Self::Front, Self::Back)
        requires { home self.old }
        ensures front { Self.Front.half result.0 ≡ front self.old }
        ensures back { Self.Back.half result.1 ≡ back self.old };

    /// Takes the halves back.
    fn back(&mut self, front_half: Self::Front, back_half: Self::Back)
        ensures home { home self.new }
        ensures front { front self.new ≡ Self.Front.half front_half }
        ensures back { back self.new ≡ Self.Back.half back_half };
}
