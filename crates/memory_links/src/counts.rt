//! What a half of a board counts.

ghost use Rattle.std.specs.Prelude.{◌≡◌};
ghost use Rattle.proxy_links.specs.Board.{Looks};
ghost use Rattle.memory_links.specs.Counts.{half_of, no_half};

use proxy_links::Look;

/// The looks of a half, and those of them that told Park and Over.
#[derive(Drop)]
pub(crate) struct Counts {
    looks: u64,
    parks: u64,
    overs: u64,
}

impl Counts {
    /// Of no look.
    pub fn none() -> Counts
        ensures { half_of result ≡ no_half }
    {
        Counts {
            looks: 0,
            parks: 0,
            overs: 0,
        }
    }

    /// Of one look more, which told this.
    pub fn note(&mut self, look: Look)
        ensures { Looks look (half_of self.old) (half_of self.new) }
    {
        self.looks = self.looks.saturating_add(1);
        match look {
            Look::Go => {}
            Look::Park => self.parks = self.parks.saturating_add(1),
            Look::Over => self.overs = self.overs.saturating_add(1),
        }
    }
}
